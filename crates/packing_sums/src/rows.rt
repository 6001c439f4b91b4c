//! Rows that follow, with multiples of what is 0.
ghost use Rattle.std.specs.Prelude.{◌≡◌, ◌≤◌, ◌^◌, true, IfOk, OnOk};
ghost use Rattle.form_build.specs.Worlds.{Defines};
ghost use Rattle.form_build.specs.Sums.{IsLinear};
ghost use Rattle.stated_facts.specs.Rows.{Follows, IsNought, IsAllowed};

use crate::packing::HEAVIEST;
use form_build::{Linear, Maker};
use form_truths::state_below;
use stated_facts::{MOST_TIMES, Nought, is_allowed, multiple_of, signed};
use std::alloc::AllocError;

/// How often a row is taken, and how often what is 0.
#[derive(Clone, Copy, PartialEq)]
pub struct Multiple {
    /// How often the row.
    pub row: u64,
    /// How often what is 0.
    pub zero: u64,
}

/// A row so many times.
fn scaled(maker: &Maker, row: &Linear, times: u64) -> Result<Linear, AllocError>
    requires row { IsLinear (2 ^ 40) maker.now.domains row.now }
    requires small { times ≤ 2 ^ 18 }
    requires follows { Follows maker.now row.now }
    ensures row { IfOk result (λ r. IsLinear (2 ^ 58) maker.now.domains r) }
    ensures follows { IfOk result (λ r. Follows maker.now r) }
{
    let r = row.times(maker.alloc(), signed(times))?;
    Ok(r)
}

/// States a row that follows, with a multiple of what is 0, added or taken away.
fn state_with(
    maker: &mut Maker,
    row: &Linear,
    zero: &Nought,
    n: u64,
    rises: bool,
) -> Result<(), AllocError>
    requires row { IsLinear (2 ^ 58) maker.old.domains row.now }
    requires nought { IsNought maker.old zero.now }
    requires small { n ≤ 2 ^ 38 }
    requires follows { Follows maker.old row.now }
    requires allowed { IsAllowed zero.now rises }
    ensures { OnOk result (Defines maker.old maker.new) }
{
    let more = multiple_of(maker, zero, n, rises)?;
    let f = row.plus(maker.alloc(), &more)?;
    maker.ask(2)?;
    state_below(maker, &f)?;
    Ok(())
}

/// Whether neither is taken too often.
fn is_small(m: Multiple) -> bool
    ensures row { result ≡ true → m.row ≤ 2 ^ 18 }
    ensures zero { result ≡ true → m.zero ≤ 2 ^ 38 }
{
    m.row <= MOST_TIMES && m.zero <= HEAVIEST
}

/// The same of multiples of both, where these aren't too great.
fn state_if_small(
    maker: &mut Maker,
    row: &Linear,
    zero: &Nought,
    m: Multiple,
    rises: bool,
) -> Result<(), AllocError>
    requires row { IsLinear (2 ^ 40) maker.old.domains row.now }
    requires nought { IsNought maker.old zero.now }
    requires follows { Follows maker.old row.now }
    ensures { OnOk result (Defines maker.old maker.new) }
{
    if !is_small(m) || !is_allowed(zero, rises) {
        return Ok(());
    }
    let own = scaled(maker, row, m.row)?;
    state_with(maker, &own, zero, m.zero, rises)?;
    Ok(())
}

/// States a row that follows with what is 0, added or taken away, by each of these multiples.
pub fn state_multiples(
    maker: &mut Maker,
    row: &Linear,
    zero: &Nought,
    multiples: &[Multiple],
    rises: bool,
) -> Result<(), AllocError>
    requires row { IsLinear (2 ^ 40) maker.old.domains row.now }
    requires nought { IsNought maker.old zero.now }
    requires follows { Follows maker.old row.now }
    ensures { OnOk result (Defines maker.old maker.new) }
{
    for m in multiples {
        state_if_small(maker, row, zero, *m, rises)?;
    }
    Ok(())
}
