//! That no two members have one value, stated pair by pair.
//!
//! Each pair is a statement of its own. One conjunction of all pairs would say the same, but where
//! it holds it tells of one part in each call, and looks for that part from the first on: of many
//! pairs that is their square.
ghost use Rattle.std.specs.Prelude.{◌≡◌, not, [], List, ℤ, length, OnOk};
ghost use Rattle.std.specs.List.{All, list_any};
ghost use Rattle.form_build.specs.Worlds.{Adds};
ghost use Rattle.pairwise_forms.specs.Clashing.{clash_at, some_clash, IsKeyed};

use crate::clashes::clash_of;
use crate::members::Keyed;
use form_build::{Maker, turned};
use form_truths::state_truth;
use std::alloc::AllocError;

/// States that two members don't clash.
fn state_apart(maker: &mut Maker, e: &Keyed, f: &Keyed) -> Result<(), AllocError>
    requires left { IsKeyed (length maker.old.domains) e.now }
    requires right { IsKeyed (length maker.old.domains) f.now }
    ensures says { OnOk result (Adds [] maker.old maker.new (λ a. not (clash_at e.now f.now a))) }
{
    let clash = clash_of(maker, e, f)?;
    let apart = turned(maker.alloc(), maker.domains(), &clash)?;
    maker.ask(1)?;
    state_truth(maker, apart)?;
    Ok(())
}

/// States that a member clashes with none of these.
fn state_apart_from(maker: &mut Maker, e: &Keyed, others: &[Keyed]) -> Result<(), AllocError>
    requires left { IsKeyed (length maker.old.domains) e.now }
    requires right { All (IsKeyed (length maker.old.domains)) others.now }
    ensures says { OnOk result (Adds [] maker.old maker.new
        (λ a. not (list_any (λ f. clash_at e.now f a) others.now))) }
{
    for f in others {
        state_apart(maker, e, f)?;
    }
    Ok(())
}

/// States that no two members clash.
pub(crate) fn state_no_clash(maker: &mut Maker, members: &[Keyed]) -> Result<(), AllocError>
    requires members { All (IsKeyed (length maker.old.domains)) members.now }
    ensures says { OnOk result (Adds [] maker.old maker.new (λ a. not (some_clash members.now a))) }
{
    for i in 0..members.len() {
        state_apart_from(maker, &members[i], &members[i + 1..])?;
    }
    Ok(())
}
