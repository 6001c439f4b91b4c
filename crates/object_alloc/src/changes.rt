//! A law on changes: a configuration makes none of its own values.
ghost use Rattle.std.specs.Prelude.{◌≡◌, [], Some, map, true};
ghost use Rattle.object_alloc.specs.Changes.{allowed, changes};

use crate::object::Config;
use crate::objects::Objects;

/// It does nothing; its contract is the law. With its own values as hints a configuration changes
/// no leaf, and where no object has failed each is allowed.
pub fn own_values_are_no_changes(objects: &Objects<'_>, config: &Config)
    ensures changes { changes objects.now (map Some config.now) config.now ≡ 0 }
    ensures allowed { allowed objects.now [] config.now ≡ true }
{}
