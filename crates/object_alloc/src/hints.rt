//! Hints: configurations taken as hints, and what hints are cell by cell.
ghost use Rattle.std.specs.Prelude.{◌≡◌, ◌++◌, All, Some, drop, map, IfOk};
ghost use Rattle.object_alloc.specs.Cells.{cells};
ghost use Rattle.object_alloc.specs.Configurations.{IsConfiguration};
ghost use Rattle.object_alloc.specs.Hints.{AreCellHints, AreHints};
ghost use Rattle.object_alloc.specs.Members.{HasItsSize};
ghost use Rattle.object_alloc.specs.Walk.{leaves_in, walk};

use crate::object::{Config, Hints};
use crate::objects::Objects;
use std::alloc::{AllocError, Global};

impl Hints {
    /// The values of a configuration, each as the hint for its cell. The cost is the number of
    /// cells.
    pub fn of_config(alloc: Global, config: &Config) -> Result<Self, AllocError>
        ensures values { IfOk result (λ hints. hints ≡ map Some config.now) }
    {
        let mut values = Vec::new(alloc);
        for value in config.items() {
            values.push(Some(*value))?;
        }
        Ok(Hints::of(values))
    }
}

/// It does nothing; its contract is the law. The values of a configuration in which each reference
/// set has its size are hints.
#[tactic(auto, using(crate::proofs::HintLaws::configuration_hints))]
pub fn configuration_is_hints(objects: &Objects<'_>, config: &Config)
    requires config { IsConfiguration objects.now config.now }
    requires sets { All (HasItsSize objects.now config.now) (leaves_in (walk objects.now)) }
    ensures hints { AreHints objects.now (map Some config.now) }
{
    let _count = objects.count();
}

/// It does nothing; its contract is the law. There are as many hints as cells, and each hint lies
/// in its cell's domain.
pub fn hints_lie_in_domains(objects: &Objects<'_>, hints: &Hints)
    requires hints { AreHints objects.now hints.now }
    ensures cells { AreCellHints objects.now (cells objects.now) hints.now }
{}
