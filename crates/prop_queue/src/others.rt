//! The constraints that aren't clauses, by number.
ghost use Rattle.std.specs.Prelude.{◌≡◌, ◌<◌, ◌^◌, ◌++◌, ℕ, length, IfOk, OnOk};
ghost use Rattle.prop_queue.specs.Work.{own_number, others_from};

use crate::rows::is_clause;
use ground_form::Con;
use std::alloc::{AllocError, Global};

/// Adds the number, where the constraint isn't a clause.
fn push_other(others: &mut Vec<u32>, k: u32, con: &Con) -> Result<(), AllocError>
    ensures { OnOk result (others.new.items ≡ others.old.items ++ own_number k con.now) }
{
    if !is_clause(con) {
        others.push(k)?;
    }
    Ok(())
}

/// The numbers of the constraints that aren't clauses, in order.
///
/// # Errors
/// Want of memory.
pub fn others_of(cons: &[Con], alloc: Global) -> Result<Vec<u32>, AllocError>
    requires few { length cons.now < 2 ^ 32 }
    ensures { IfOk result (λ others. others.items ≡ others_from 0 cons.now) }
{
    let mut others = Vec::new(alloc);
    for k in 0..cons.len() {
        push_other(&mut others, k as u32, &cons[k])?;
    }
    Ok(others)
}
