//! The variables of a constraint, as a list.
ghost use Rattle.std.specs.Prelude.{◌≡◌, ℕ, true, IfOk};
ghost use Rattle.ground_form.specs.Meaning.{vars_of};
ghost use Rattle.rule_law.specs.Reasons.{has_number, no_repeat};

use ground_form::Con;
use std::alloc::{AllocError, Global};

/// The variables that the constraint names, in its order, each as often as it stands there.
#[tactic(auto, using(ground_form::proofs::VarsAt::no_var))]
pub fn all_vars(con: &Con, alloc: Global) -> Result<Vec<u32>, AllocError>
    ensures { IfOk result (λ vars. vars.items ≡ vars_of con.now) }
{
    let mut vars = Vec::new(alloc);
    while let Some(x) = con.variable(vars.len()) {
        vars.push(x)?;
    }
    Ok(vars)
}

/// The same variables, each once and ascending.
pub fn distinct(mut vars: Vec<u32>) -> Vec<u32>
    ensures differ { no_repeat result.items ≡ true }
    ensures same { (x : ℕ) → has_number x result.items ≡ has_number x vars.items }
{
    vars.sort_unstable();
    vars.dedup();
    vars
}
