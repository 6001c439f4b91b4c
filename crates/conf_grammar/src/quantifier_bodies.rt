//! What may stand in a quantifier: a filter, how many bodies, and how they end.
ghost use Rattle.std.specs.Prelude.{◌≡◌};
ghost use Rattle.conf_syntax.specs.Plain.{semicolons, may_more, may_end};
ghost use Rattle.conf_syntax.specs.Trees.{may_filter};

use conf_syntax::QuantKind;

/// Whether the bodies of a quantifier end with semicolons.
pub fn semicolons(kind: QuantKind) -> bool
    ensures { result ≡ semicolons kind }
{
    match kind {
        QuantKind::Forall | QuantKind::Exists | QuantKind::Pack => true,
        QuantKind::Sum | QuantKind::Count | QuantKind::AllDifferent => false,
    }
}

/// Whether a quantifier may have a filter.
pub fn may_filter(kind: QuantKind) -> bool
    ensures { result ≡ may_filter kind }
{
    match kind {
        QuantKind::Forall | QuantKind::Exists | QuantKind::Sum => true,
        QuantKind::Count | QuantKind::AllDifferent | QuantKind::Pack => false,
    }
}

/// Whether one more body may follow so many.
pub fn may_more(kind: QuantKind, count: usize) -> bool
    ensures { result ≡ may_more kind count }
{
    match kind {
        QuantKind::Forall | QuantKind::Exists => true,
        QuantKind::Pack => count <= 2,
        QuantKind::Sum | QuantKind::Count | QuantKind::AllDifferent => false,
    }
}

/// Whether so many bodies, at least one, are enough.
pub fn may_end(kind: QuantKind, count: usize) -> bool
    ensures { result ≡ may_end kind count }
{
    match kind {
        QuantKind::Pack => count == 3,
        _ => true,
    }
}
