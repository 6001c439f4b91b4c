//! What is stated of every world, and no more.
ghost use Rattle.std.specs.Prelude.{◌<◌, ◌≤◌, ◌-◌, ◌^◌, [], int_le, length, Contains, OnOk};
ghost use Rattle.std.specs.List.{All};
ghost use Rattle.signed_clause.specs.Clauses.{clause_true};
ghost use Rattle.ground_form.specs.declared.con.Con.TheVariants.{AllDiff, Pack};
ghost use Rattle.ground_form.specs.Meaning.{sum_at, all_differ, rooms_hold};
ghost use Rattle.ground_form.specs.Bounds.{weight_of, IsPackBounded, most_sum};
ghost use Rattle.ground_build.specs.Growing.{AreItemVariables};
ghost use Rattle.form_build.specs.Worlds.{Adds, IsFew, AreSome};

use ground_build::Builder;
use signed_clause::Clause;
use std::alloc::AllocError;

/// States a clause.
pub(crate) fn require(b: &mut Builder, c: Clause) -> Result<(), AllocError>
    requires room { length b.old.cons < 2 ^ 32 - 1 }
    requires variables { All (λ l. l.0 < length b.old.domains) c }
    ensures says { OnOk result (Adds [] b.old b.new (λ a. clause_true c a)) }
    ensures few { OnOk result (IsFew 1 b.old b.new) }
    ensures some { AreSome b.old.domains → AreSome b.new.domains }
{
    b.require(c)?;
    Ok(())
}

/// States that the terms add up to at most the bound.
pub(crate) fn require_at_most(
    b: &mut Builder,
    terms: &[(i64, u32)],
    bound: i64,
) -> Result<(), AllocError>
    requires room { length b.old.cons < 2 ^ 32 - 1 }
    requires variables { All (λ t. t.1 < length b.old.domains) terms.now }
    requires bounded { weight_of terms.now b.old.domains ≤ most_sum }
    ensures says { OnOk result (Adds [] b.old b.new (λ a. int_le (sum_at terms.now a) bound)) }
    ensures few { OnOk result (IsFew 1 b.old b.new) }
    ensures some { AreSome b.old.domains → AreSome b.new.domains }
{
    b.require_at_most(terms, bound)?;
    Ok(())
}

/// States that the values at different places of the list differ.
pub(crate) fn require_different(b: &mut Builder, vars: &[u32]) -> Result<(), AllocError>
    requires room { length b.old.cons < 2 ^ 32 - 1 }
    requires variables { All (λ x. x < length b.old.domains) vars.now }
    ensures says { OnOk result (Adds [] b.old b.new (λ a. all_differ vars.now a)) }
    ensures stands { OnOk result (Contains b.new.cons (AllDiff vars.now)) }
    ensures few { OnOk result (IsFew 1 b.old b.new) }
    ensures some { AreSome b.old.domains → AreSome b.new.domains }
{
    b.require_different(vars)?;
    Ok(())
}

/// States that of each item (place, size, room), the sizes at its place add up to at most its
/// room.
pub(crate) fn require_pack(b: &mut Builder, items: &[(u32, u32, u32)]) -> Result<(), AllocError>
    requires room { length b.old.cons < 2 ^ 32 - 1 }
    requires variables { All (λ i. AreItemVariables b.old i) items.now }
    requires bounded { IsPackBounded items.now b.old.domains }
    ensures says { OnOk result (Adds [] b.old b.new (λ a. rooms_hold items.now items.now a)) }
    ensures stands { OnOk result (Contains b.new.cons (Pack items.now)) }
    ensures few { OnOk result (IsFew 1 b.old b.new) }
    ensures some { AreSome b.old.domains → AreSome b.new.domains }
{
    b.require_pack(items)?;
    Ok(())
}
