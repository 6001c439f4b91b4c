//! The sizes of the items in a set, as a sum.
ghost use Rattle.std.specs.Prelude.{◌≡◌, ◌<◌, ◌≤◌, ◌^◌, ℤ, pos, cond, List, length, IfOk};
ghost use Rattle.std.specs.List.{All};
ghost use Rattle.signed_clause.specs.Ranges.{has};
ghost use Rattle.ground_form.specs.Meaning.{value_of};
ghost use Rattle.form_build.specs.Forms.{linear_at, truth_at, HasVariable};
ghost use Rattle.form_build.specs.Worlds.{IsWorld, Defines};
ghost use Rattle.form_build.specs.Sums.{IsSum};
ghost use Rattle.packing_sums.specs.Loads.{sizes_where, size_of};

use crate::amounts::amount;
use form_build::{Linear, Maker, Truth, plus};
use form_truths::{literal, times_truth};
use signed_clause::IntSet;
use std::alloc::AllocError;

/// The size where the truth holds, and 0 where it doesn't. Where the truth is fixed nothing is
/// made.
fn size_where(maker: &mut Maker, size: u64, t: &Truth) -> Result<Linear, AllocError>
    requires variable { HasVariable (length maker.old.domains) t.now }
    requires small { size ≤ 2 ^ 38 }
    ensures value { IfOk result (λ r. (a : List ℤ) → IsWorld maker.new a
        → linear_at r a ≡ pos (cond (truth_at t.now a) size 0)) }
    ensures sum { IfOk result (λ r. IsSum maker.new.domains (pos 0) (pos size) r) }
    ensures adds { IfOk result (λ r. Defines maker.old maker.new) }
{
    match t {
        Truth::Fixed(true) => Ok(amount(maker.alloc(), size)),
        Truth::Fixed(false) => Ok(amount(maker.alloc(), 0)),
        Truth::In(_, _) => {
            let number = amount(maker.alloc(), size);
            maker.ask(3)?;
            let r = times_truth(maker, &number, t)?;
            Ok(r)
        }
    }
}

/// The size of an item where its bin is in the set, and 0 where it isn't.
fn size_inside(maker: &mut Maker, s: (u32, u64), set: &IntSet) -> Result<Linear, AllocError>
    requires exists { s.0 < length maker.old.domains }
    requires small { s.1 ≤ 2 ^ 38 }
    ensures value { IfOk result (λ r. (a : List ℤ) → IsWorld maker.new a
        → linear_at r a ≡ pos (cond (has set.now (value_of a s.0)) s.1 0)) }
    ensures sum { IfOk result (λ r. IsSum maker.new.domains (pos 0) (pos s.1) r) }
    ensures adds { IfOk result (λ r. Defines maker.old maker.new) }
{
    let t = literal(maker.domains(), s.0, set.copy()?);
    let r = size_where(maker, s.1, &t)?;
    Ok(r)
}

/// The sizes of the items whose bins are in the set, added up by halves.
pub fn sizes_inside(
    maker: &mut Maker,
    items: &[(u32, u64)],
    set: &IntSet,
) -> Result<Linear, AllocError>
    requires exist { All (λ s. s.0 < length maker.old.domains) items.now }
    requires light { size_of items.now ≤ 2 ^ 38 }
    ensures value { IfOk result (λ r. (a : List ℤ) → IsWorld maker.new a
        → linear_at r a ≡ pos (sizes_where (has set.now) items.now a)) }
    ensures sum { IfOk result (λ r. IsSum maker.new.domains (pos 0) (pos (size_of items.now)) r) }
    ensures adds { IfOk result (λ r. Defines maker.old maker.new) }
{
    match items {
        [] => Ok(amount(maker.alloc(), 0)),
        [only] => {
            let r = size_inside(maker, *only, set)?;
            Ok(r)
        }
        _ => {
            let (front, back) = items.split_at(items.len() / 2);
            let f = sizes_inside(maker, front, set)?;
            let g = sizes_inside(maker, back, set)?;
            maker.ask(1)?;
            let r = plus(maker, &f, &g)?;
            Ok(r)
        }
    }
}
