//! What a session takes from a round: former values, and clauses.
ghost use Rattle.std.specs.Prelude.{◌≡◌, ◌+◌, ◌^◌, ◌≤◌, true, length, IfOk};
ghost use Rattle.ground_form.specs.WellMade.{IsWellMade};
ghost use Rattle.log_check.specs.Soundness.{FoundSolves};
ghost use Rattle.reconfigure.specs.Repairing.{Extends};
ghost use Rattle.run_law.specs.Replay.{is_run};
ghost use Rattle.command_limits.specs.Limits.{most_kept};
ghost use Rattle.conf_session.specs.Steps.{IsGroundBehind, IsBehind};

use crate::keeping::with_kept;
use crate::state::State;
use crate::values::former_behind;
use command_limits::MOST_KEPT;
use ground_form::Ground;
use kept_clauses::kept_lines;
use log_check::Verdict;
use log_form::Line;
use run_law::front_is_run;
use std::alloc::{AllocError, Global};

/// The problem behind a round over a problem that begins with this one, of which it had so many
/// constraints at first.
fn ground_behind(
    alloc: Global,
    ground: Ground,
    begun: usize,
    g: &Ground,
    lines: &[Line],
) -> Result<Ground, AllocError>
    requires old { IsWellMade ground }
    requires few { begun ≤ 2 ^ 31 }
    requires grown { begun ≤ length ground.cons }
    requires kept { length ground.cons ≤ begun + most_kept }
    requires well_made { IsWellMade g.now }
    requires run { is_run g.now lines.now ≡ true }
    requires extends { Extends ground g.now }
    ensures { IfOk result (λ new. IsGroundBehind begun ground g.now lines.now new) }
{
    front_is_run(g, lines);
    let n = ground.domains.items().len();
    let b = ground.cons.items().len();
    let flags = kept_lines(alloc, g, n as u32, b as u32, lines)?;
    let new = with_kept(alloc, ground, begun + MOST_KEPT - b, &flags, lines)?;
    Ok(new)
}

/// What a session has come to behind a round over this problem, with these lines and this verdict.
pub(crate) fn behind(
    alloc: Global,
    state: State,
    g: &Ground,
    lines: &[Line],
    verdict: &Verdict,
) -> Result<State, AllocError>
    requires well_made { IsWellMade g.now }
    requires run { is_run g.now lines.now ≡ true }
    requires found { FoundSolves g.now verdict.now.found }
    requires extends { Extends state.ground g.now }
    ensures behind { IfOk result (λ new. IsBehind state g.now lines.now verdict.now new) }
{
    let State {
        ground,
        former,
        failed,
        begun,
    } = state;
    let former = former_behind(alloc, ground.search, former, verdict)?;
    let ground = ground_behind(alloc, ground, begun, g, lines)?;
    Ok(State {
        ground,
        former,
        failed,
        begun,
    })
}
