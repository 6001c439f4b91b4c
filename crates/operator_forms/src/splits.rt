//! Which truths of the two sides make a truth of the whole: where something is wanted of `and`,
//! `or` or `->`, it is wanted of both sides, or of one of them.
ghost use Rattle.std.specs.Prelude.{◌≡◌, is_some, IfSome};
ghost use Rattle.operator_forms.specs.Operating.{needs_both, needs_either, AreBoth, AreEither};

use conf_syntax::Op;

/// The truths of both sides that together make the wanted truth, where one pair does.
pub fn both_sides(op: Op, want: bool) -> Option<(bool, bool)>
    ensures some { is_some result ≡ needs_both op want }
    ensures both { IfSome result (λ p. AreBoth op want p) }
{
    match (op, want) {
        (Op::And, true) => Some((true, true)),
        (Op::Or, false) => Some((false, false)),
        (Op::Implies, false) => Some((true, false)),
        _ => None,
    }
}

/// The truth of each side that alone makes the wanted truth, where one of each does.
pub fn either_side(op: Op, want: bool) -> Option<(bool, bool)>
    ensures some { is_some result ≡ needs_either op want }
    ensures either { IfSome result (λ p. AreEither op want p) }
{
    match (op, want) {
        (Op::Or, true) => Some((true, true)),
        (Op::And, false) => Some((false, false)),
        (Op::Implies, true) => Some((false, true)),
        _ => None,
    }
}
