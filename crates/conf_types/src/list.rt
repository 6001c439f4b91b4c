//! The lists of a typed model, each seen by clauses as the list of its items.
ghost use Rattle.std.specs.Prelude.{◌≡◌};

use crate::{Constraint, Goal};
use std::marker::Model;

/// Constraints, in order of place.
pub struct Constraints {
    items: Vec<Constraint>,
}

impl Drop for Constraints {
    fn drop(self) {
        let Constraints { items: _ } = self;
    }
}

impl Model for Constraints {
    ghost use Rattle.std.specs.Prelude.{List};
    ghost use Rattle.std.specs.Coded.{coded_list};
    ghost use Rattle.conf_types.specs.Resolved.{ResolvedConstraint};
    ghost use Rattle.conf_types.specs.TreeCodes.{coded_constraint};

    ghost Value = { List ResolvedConstraint };

    ghost coded = { coded_list coded_constraint };

    ghost view = { λ list. list.items.items };
}

impl Constraints {
    /// The list of these items.
    pub fn of(items: Vec<Constraint>) -> Self
        ensures items { result ≡ items.items }
    {
        Constraints { items }
    }

    /// The items, in order.
    pub fn items(&self) -> &[Constraint]
        ensures items { result.now ≡ self.now }
    {
        &self.items
    }
}

/// Objectives, in order of place.
pub struct Goals {
    items: Vec<Goal>,
}

impl Drop for Goals {
    fn drop(self) {
        let Goals { items: _ } = self;
    }
}

impl Model for Goals {
    ghost use Rattle.std.specs.Prelude.{List};
    ghost use Rattle.std.specs.Coded.{coded_list};
    ghost use Rattle.conf_types.specs.Resolved.{ResolvedGoal};
    ghost use Rattle.conf_types.specs.TreeCodes.{coded_goal};

    ghost Value = { List ResolvedGoal };

    ghost coded = { coded_list coded_goal };

    ghost view = { λ list. list.items.items };
}

impl Goals {
    /// The list of these items.
    pub fn of(items: Vec<Goal>) -> Self
        ensures items { result ≡ items.items }
    {
        Goals { items }
    }

    /// The items, in order.
    pub fn items(&self) -> &[Goal]
        ensures items { result.now ≡ self.now }
    {
        &self.items
    }
}
