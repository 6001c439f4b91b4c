//! What is still known of a clause, step by step.
ghost use Rattle.std.specs.Prelude.{◌≡◌, ◌==◌};
ghost use Rattle.clause_watches.specs.Watching.{is_listed, holds};
ghost use Rattle.clause_watches.specs.Rows.{names, forgotten};
ghost use Rattle.clause_watches.specs.Looking.{linked};

use crate::rest::Rest;

/// Whether the clause is still to be looked at.
pub(crate) fn is_listed(rest: Rest) -> bool
    ensures { result ≡ is_listed rest }
{
    match rest {
        Rest::Listed | Rest::Half(_) => true,
        Rest::On(_, _) | Rest::Held(_) => false,
    }
}

/// What is left of a rest once `x` is named no longer.
pub(crate) fn forgotten(rest: Rest, x: u32) -> Rest
    ensures { result ≡ forgotten x rest }
{
    match rest {
        Rest::Half(y) | Rest::Held(y) if x == y => Rest::Listed,
        Rest::On(y, z) if x == y && x == z => Rest::Listed,
        Rest::On(y, z) if x == y => Rest::Half(z),
        Rest::On(y, z) if x == z => Rest::Half(y),
        kept => kept,
    }
}

/// Whether the clause rests by the literal of `x` alone.
pub(crate) fn holds(rest: Rest, x: u32) -> bool
    ensures { result ≡ holds rest x }
{
    match rest {
        Rest::Held(y) => y == x,
        _ => false,
    }
}

/// Whether the rest names `x`.
pub(crate) fn names(rest: Rest, x: u32) -> bool
    ensures { result ≡ names rest x }
{
    match rest {
        Rest::Listed => false,
        Rest::Half(y) | Rest::Held(y) => y == x,
        Rest::On(y, z) => y == x || z == x,
    }
}

/// What is known once the literal of `x` is found to meet its box, too.
pub(crate) fn linked(rest: Rest, x: u32) -> Rest
    ensures { result ≡ linked x rest }
{
    match rest {
        Rest::Listed => Rest::Half(x),
        Rest::Half(y) => Rest::On(y, x),
        kept => kept,
    }
}
