//! Variables that don't have a value where a flag has a truth.
ghost use Rattle.std.specs.Prelude.{◌≡◌, ◌≤◌, ◌^◌, ℕ, ℤ, List, false, pos, IfOk, IfSome};
ghost use Rattle.std.specs.List.{All};
ghost use Rattle.std.specs.Ordering.{int_eq};
ghost use Rattle.ground_form.specs.Meaning.{value_of};
ghost use Rattle.packing_sums.specs.Hosts.{NoneAt, AreAway};

use crate::packing::HEAVIEST;
use form_build::Maker;
use stated_facts::{bit_of, claims_of};
use std::alloc::{AllocError, Global};

/// Variables, and a bin at which they aren't.
#[derive(Drop)]
pub struct Away {
    /// The bin.
    pub bin: u64,
    /// The variables.
    pub vars: Vec<u32>,
}

/// The value that the variables are said not to have, where it is one.
fn only_bin(others: &[(u32, u64)]) -> Option<u64>
    ensures all { IfSome result (λ bin. All (λ q. q.1 ≡ bin) others.now) }
    ensures small { IfSome result (λ bin. bin ≤ 2 ^ 38) }
{
    let bin = others.first()?.1;
    for q in others {
        if q.1 != bin {
            return None;
        }
    }
    if bin <= HEAVIEST { Some(bin) } else { None }
}

/// The variables that are said not to have a value.
fn listed(alloc: Global, others: &[(u32, u64)]) -> Result<Vec<u32>, AllocError>
    ensures { IfOk result (λ xs. (bin : ℕ) (a : List ℤ)
        → All (λ q. int_eq (value_of a q.0) (pos bin) ≡ false) others.now
        → NoneAt bin xs.items a) }
{
    let mut vars = Vec::new(alloc);
    for q in others {
        vars.push(q.0)?;
    }
    Ok(vars)
}

/// They in their order.
fn sorted(vars: Vec<u32>) -> Vec<u32>
    ensures { (bin : ℕ) (a : List ℤ) → NoneAt bin vars.items a → NoneAt bin result.items a }
{
    let mut vars = vars;
    vars.sort_unstable();
    vars
}

/// The variables that aren't at a bin, where the flag has this truth.
pub fn away_from(
    maker: &Maker,
    indexes: &[usize],
    flag: u32,
    truth: bool,
) -> Result<Option<Away>, AllocError>
    ensures { IfOk result (λ o. IfSome o (λ w. AreAway maker.now flag truth w)) }
{
    let Some(claims) = claims_of(maker, indexes, flag, bit_of(truth))? else {
        return Ok(None);
    };
    let Some(bin) = only_bin(claims.others.as_slice()) else {
        return Ok(None);
    };
    let list = listed(maker.alloc(), claims.others.as_slice())?;
    let vars = sorted(list);
    Ok(Some(Away { bin, vars }))
}
