//! Whether the variables that aren't searched have their definitions.
//!
//! Of these variables the first has to be defined by the first constraint, the second by the
//! second, and so on; no other constraint may define one of them.
ghost use Rattle.std.specs.Prelude.{◌≡◌, ℕ, ◌+◌, ◌<◌, ◌≤◌, ◌^◌, true, Some, None, length, drop, slice_get, IfOk};
ghost use Rattle.std.specs.List.{All};
ghost use Rattle.ground_form.specs.WellMade.{defined_by};
ghost use Rattle.test_well_made.specs.Defined.{DoesDefine, IsPlaced, ArePlaced};

use ground_form::Con;
use rule_law::all_vars;
use std::alloc::{AllocError, Global};

/// The variable that a constraint of a defining kind defines.
fn defined_by(con: &Con) -> Option<u32>
    ensures { result ≡ defined_by con.now }
{
    match con {
        Con::LinDef { out, .. } => Some(*out),
        Con::ReifLe { flag, .. } => Some(*flag),
        Con::AndDef { flag, .. } => Some(*flag),
        Con::MemberDef { flag, .. } => Some(*flag),
        Con::EqDef { flag, .. } => Some(*flag),
        Con::ElementDef { out, .. } => Some(*out),
        Con::CondDef { out, .. } => Some(*out),
        Con::LinLe { .. } => None,
        Con::ClauseCon { .. } => None,
        Con::AllDiff { .. } => None,
        Con::Pack { .. } => None,
    }
}

/// Whether the variables behind the first are below `x`.
fn are_below(vars: &[u32], x: u32) -> bool
    ensures { result ≡ true → All (λ y. y < x) (drop 1 vars.now) }
{
    let mut i = 1;
    while i < vars.len() {
        if vars[i] >= x {
            return false;
        }
        i += 1;
    }
    true
}

/// Whether the constraint defines `x`, by variables before it.
#[tactic(auto, using(crate::proofs::Definitions::defined_from))]
fn does_define(con: &Con, x: u32, alloc: Global) -> Result<bool, AllocError>
    ensures { IfOk result (λ yes. yes ≡ true → DoesDefine x con.now) }
{
    match defined_by(con) {
        Some(y) if y == x => {
            let vars = all_vars(con, alloc)?;
            Ok(are_below(vars.as_slice(), x))
        }
        _ => Ok(false),
    }
}

/// Whether the constraint defines no variable from `search` on.
fn is_other(con: &Con, search: u32) -> bool
    ensures { result ≡ true → (x : ℕ) → defined_by con.now ≡ Some x → x < search }
{
    match defined_by(con) {
        Some(x) => x < search,
        None => true,
    }
}

/// Whether the constraint of a number is as is asked.
fn is_placed(
    con: &Con,
    number: u32,
    search: u32,
    count: u32,
    alloc: Global,
) -> Result<bool, AllocError>
    requires { search + count < 2 ^ 32 }
    ensures { IfOk result (λ yes. yes ≡ true → IsPlaced search count number con.now) }
{
    if number < count {
        does_define(con, search + number, alloc)
    } else {
        Ok(is_other(con, search))
    }
}

/// The constraint of a number.
#[tactic(auto, using(crate::proofs::Definitions::con_there))]
fn con_at(cons: &[Con], k: usize) -> &Con
    requires { k < length cons.now }
    ensures { slice_get cons.now k ≡ Some result.now }
{
    &cons[k]
}

/// Whether the `count` variables from `search` on are defined by the first constraints, and by no
/// others.
#[tactic(auto, using(crate::proofs::Definitions::placed_step, crate::proofs::Definitions::placed_all))]
pub(crate) fn are_placed(
    cons: &[Con],
    search: u32,
    count: u32,
    alloc: Global,
) -> Result<bool, AllocError>
    requires variables { search + count < 2 ^ 32 }
    requires constraints { length cons.now < 2 ^ 32 }
    ensures { IfOk result (λ yes. yes ≡ true → ArePlaced search count cons.now) }
{
    for k in 0..cons.len() {
        if !is_placed(con_at(cons, k), k as u32, search, count, alloc)? {
            return Ok(false);
        }
    }
    Ok(true)
}
