//! Whether some variable of a constraint has an empty box.
ghost use Rattle.std.specs.Prelude.{◌≡◌, IfSome, slice_get};
ghost use Rattle.signed_clause.specs.Ranges.{is_nil};
ghost use Rattle.signed_clause.specs.Clauses.{box_of};
ghost use Rattle.ground_form.specs.Meaning.{vars_of};
ghost use Rattle.box_rules.specs.Refuted.{some_empty};
ghost use Rattle.box_rules.specs.Named.{IsNamed};

use box_view::View;
use ground_form::Con;

/// Whether some variable of the constraint has an empty box.
#[tactic(auto, using(crate::proofs::VarWalks::nothing_left))]
pub fn has_empty<V: View>(con: &Con, view: &V) -> bool
    requires { IsNamed con.now (V.boxes view.now) }
    ensures { result ≡ some_empty (vars_of con.now) (V.boxes view.now) }
{
    for i in 0..con.variable_count() {
        if is_empty_at(con, view, i) {
            return true;
        }
    }
    false
}

/// Whether the variable at the index has an empty box.
#[tactic(auto, using(crate::proofs::VarWalks::variable_named))]
fn is_empty_at<V: View>(con: &Con, view: &V, i: usize) -> bool
    requires { IsNamed con.now (V.boxes view.now) }
    ensures { IfSome (slice_get (vars_of con.now) i) (λ x. result
        ≡ is_nil (box_of (V.boxes view.now) x)) }
{
    match con.variable(i) {
        Some(x) => view.is_empty(x),
        None => false,
    }
}
