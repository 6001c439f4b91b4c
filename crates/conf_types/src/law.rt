//! A law: what a model states doesn't depend on where its tree lies in memory.
ghost use Rattle.std.specs.Prelude.{◌≡◌, map};
ghost use Rattle.class_table.specs.Outline.{Outline};
ghost use Rattle.conf_syntax.specs.OneModel.{AreOneModel};
ghost use Rattle.conf_types.specs.Programs.{resolved_constraint, resolved_goal, constraints, goals, faults};

use conf_syntax::Program;

/// It does nothing; its contract is the law. Trees that are one model have, under any outline, the
/// same resolved constraints and objectives, and the same faults stand in their expressions.
#[tactic(auto, using(crate::proofs::WholePrograms::one_constraints, crate::proofs::WholePrograms::one_goals, crate::proofs::WholePrograms::one_type_faults))]
pub fn one_model_states_the_same(one: &Program, other: &Program)
    requires one_model { AreOneModel one.now other.now }
    ensures constraints { (o : Outline) → map (resolved_constraint o) (constraints one.now.items)
        ≡ map (resolved_constraint o) (constraints other.now.items) }
    ensures goals { (o : Outline) → map (resolved_goal o) (goals one.now.items)
        ≡ map (resolved_goal o) (goals other.now.items) }
    ensures faults { (o : Outline) → faults o one.now.items ≡ faults o other.now.items }
{}
