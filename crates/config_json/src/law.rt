//! A law: the values of a configuration are read back from what is written for it.
ghost use Rattle.std.specs.Prelude.{◌≡◌, All, None, Some, map};
ghost use Rattle.class_table.specs.Worded.{HasWords};
ghost use Rattle.object_alloc.specs.Configurations.{IsConfiguration};
ghost use Rattle.object_alloc.specs.Members.{HasItsSize};
ghost use Rattle.object_alloc.specs.Walk.{leaves_in, walk};
ghost use Rattle.config_json.specs.Former.{hints, missing};
ghost use Rattle.config_json.specs.Tree.{config_data};

use object_alloc::{Config, Objects};

/// It does nothing; its contract is the law. Where each reference set of a configuration has its
/// size, the tree that `to_json` makes of it gives its values back as hints, and no leaf lacks one.
/// The model's names are words, as those of a text are (`class_table::names_are_words`).
pub fn own_json_gives_values(objects: &Objects<'_>, config: &Config)
    requires config { IsConfiguration objects.now config.now }
    requires sets { All (HasItsSize objects.now config.now) (leaves_in (walk objects.now)) }
    requires words { HasWords objects.now }
    ensures hints { hints objects.now (config_data objects.now config.now) ≡ map Some config.now }
    ensures whole { missing objects.now (config_data objects.now config.now) ≡ None }
{
    let _count = objects.count();
}
