//! What a session has come to.
ghost use Rattle.std.specs.Prelude.{◌≡◌, ◌^◌, ◌≤◌, length, IfOk};
ghost use Rattle.ground_form.specs.WellMade.{IsWellMade};

use conf_syntax::PathText;
use ground_form::Ground;
use object_alloc::Hints;
use std::alloc::AllocError;
use std::marker::Model;

/// What a session has come to.
#[derive(Drop)]
pub(crate) struct State {
    /// The problem of the model, with the clauses that were kept.
    pub ground: Ground,
    /// The former values.
    pub former: Hints,
    /// The words that stand as failed.
    pub failed: Vec<PathText>,
    /// How many constraints the problem had at first.
    pub begun: usize,
}

impl Model for State {
    ghost use Rattle.conf_session.specs.Standing.{Standing, IsStanding};

    ghost Value = { Standing };

    ghost view = { λ s. record {
      ground = s.ground;
      former = s.former;
      failed = s.failed.items;
      begun = s.begun;
    } };

    ghost invariant = { λ s. IsStanding (record {
      ground = s.ground;
      former = s.former;
      failed = s.failed.items;
      begun = s.begun;
    }) };
}

/// The same problem again.
pub(crate) fn copied(g: &Ground) -> Result<Ground, AllocError>
    ensures { IfOk result (λ copy. copy ≡ g.now) }
{
    Ok(Ground {
        domains: g.domains.copy()?,
        search: g.search,
        cons: g.cons.copy()?,
        goals: g.goals.copy()?,
    })
}
