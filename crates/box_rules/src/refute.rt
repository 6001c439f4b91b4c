//! When boxes refute a constraint.
ghost use Rattle.std.specs.Prelude.{◌≡◌, ◌<◌, length};
ghost use Rattle.std.specs.List.{All};
ghost use Rattle.ground_form.specs.Meaning.{vars_of};
ghost use Rattle.ground_form.specs.Bounds.{IsBounded};
ghost use Rattle.box_rules.specs.Refuted.{refuted};

use crate::exclude::refutes_in;
use box_view::Plain;
use ground_form::Con;
use signed_clause::IntSet;

/// Whether the constraint is refuted in the boxes, by the rule of its kind. It takes no memory.
#[tactic(auto, using(crate::proofs::NamedVars::named))]
pub fn refutes(con: &Con, boxes: &[IntSet]) -> bool
    requires variables { All (λ x. x < length boxes.now) (vars_of con.now) }
    requires bounded { IsBounded con.now boxes.now }
    ensures { result ≡ refuted con.now boxes.now }
{
    refutes_in(con, &Plain { boxes })
}
