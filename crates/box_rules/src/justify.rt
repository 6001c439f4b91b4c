//! When a constraint justifies a clause.
//!
//! What the clause's literals leave of the domains is a view (`Cut`), so nothing is built.
ghost use Rattle.std.specs.Prelude.{◌≡◌, ◌<◌, length};
ghost use Rattle.std.specs.List.{All};
ghost use Rattle.ground_form.specs.Meaning.{vars_of};
ghost use Rattle.ground_form.specs.Bounds.{IsBounded};
ghost use Rattle.box_rules.specs.Justified.{justified};

use crate::exclude::refutes_in;
use box_view::Cut;
use ground_form::Con;
use signed_clause::{Clause, IntSet};

/// Whether the constraint justifies the clause: it is refuted in what the clause's literals leave
/// of the domains. It takes no memory.
#[tactic(auto, using(crate::proofs::NamedVars::cut_named))]
pub fn justified(con: &Con, domains: &[IntSet], clause: &Clause) -> bool
    requires variables { All (λ x. x < length domains.now) (vars_of con.now) }
    requires bounded { IsBounded con.now domains.now }
    ensures { result ≡ justified con.now domains.now clause.now }
{
    refutes_in(con, &Cut { domains, clause })
}
