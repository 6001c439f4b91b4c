//! The values that a search found last, as former values.
ghost use Rattle.std.specs.Prelude.{◌≡◌, ◌≤◌, Some, length, map, take, IfOk, IfSome};
ghost use Rattle.conf_session.specs.Standing.{former_behind};

use log_check::{Verdict, VerdictKind};
use object_alloc::{Config, Hints};
use std::alloc::{AllocError, Global};

/// The first of these values, so many, as former values.
fn first_values(alloc: Global, n: u32, values: &[i64]) -> Result<Hints, AllocError>
    requires { n ≤ length values.now }
    ensures { IfOk result (λ hints. hints ≡ map Some (take n values.now)) }
{
    let front = values[..n as usize].to_vec(alloc)?;
    Hints::of_config(alloc, &Config::of(front))
}

/// The former values behind a round: where a best configuration was found its values, else those
/// before it.
pub(crate) fn former_behind(
    alloc: Global,
    n: u32,
    former: Hints,
    verdict: &Verdict,
) -> Result<Hints, AllocError>
    requires { IfSome verdict.now.found (λ a. n ≤ length a) }
    ensures { IfOk result (λ hints. hints ≡ former_behind n former verdict.now) }
{
    match (verdict.kind(), verdict.values()) {
        (VerdictKind::Best, Some(values)) => first_values(alloc, n, values),
        _ => Ok(former),
    }
}
