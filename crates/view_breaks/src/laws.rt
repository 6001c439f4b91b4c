//! What is listed first is what `verify` names.
ghost use Rattle.std.specs.Prelude.{◌≡◌, ◌∷◌, List, []};
ghost use Rattle.conf_eval.specs.Breaking.{IsWrongConstraint};
ghost use Rattle.conf_eval.specs.Satisfying.{Satisfies};
ghost use Rattle.view_breaks.specs.Answer.{HasFullSets};
ghost use Rattle.view_breaks.specs.Breaks.{breaks};
ghost use Rattle.view_breaks.specs.declared.breaks.Break.{Break as ABreak};

use conf_types::TypedModel;
use object_alloc::{Config, Objects};

/// Of a configuration with full sets, as every text gives one: it breaks nothing exactly where it
/// satisfies the model, and the first of its breaks is the constraint, with its object, that
/// `verify` names.
pub fn first_break_is_named(objects: &Objects<'_>, model: &TypedModel, config: &Config)
    requires sets { HasFullSets objects.now config.now }
    ensures none { breaks objects.now config.now model.now.constraints ≡ []
        → Satisfies objects.now model.now.constraints config.now }
    ensures satisfied { Satisfies objects.now model.now.constraints config.now
        → breaks objects.now config.now model.now.constraints ≡ [] }
    ensures first { (b : ABreak) (more : List ABreak)
        → breaks objects.now config.now model.now.constraints ≡ b ∷ more
        → IsWrongConstraint objects.now model.now.constraints config.now b.constraint b.object }
{}
