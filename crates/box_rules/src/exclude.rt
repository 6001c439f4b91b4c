//! Whether the rule of a constraint's kind refutes a view of boxes.
ghost use Rattle.std.specs.Prelude.{◌≡◌};
ghost use Rattle.ground_form.specs.Bounds.{IsBounded};
ghost use Rattle.box_rules.specs.Named.{IsNamed};
ghost use Rattle.box_rules.specs.Refuted.{excluded, refuted};

use crate::all_different::excludes_differing;
use crate::emptiness::has_empty;
use crate::flags::{
    excludes_clause, excludes_conditional, excludes_conjunction, excludes_element,
    excludes_equality, excludes_member,
};
use crate::linear::{excludes_at_most, excludes_reified, excludes_sum};
use crate::packing::excludes_packing;
use box_view::View;
use ground_form::{Con, Number};

/// Whether the constraint is refuted in the boxes that the view stands for. The rule is asked
/// first: where a clause is justified it nearly always tells, and then no variable is asked for.
pub fn refutes_in<V: View>(con: &Con, view: &V) -> bool
    requires named { IsNamed con.now (V.boxes view.now) }
    requires bounded { IsBounded con.now (V.outer view.now) }
    ensures { result ≡ refuted con.now (V.boxes view.now) }
{
    excludes(con, view) || has_empty(con, view)
}

/// Whether the rule of the constraint's kind excludes the boxes.
fn excludes<V: View>(con: &Con, view: &V) -> bool
    requires named { IsNamed con.now (V.boxes view.now) }
    requires bounded { IsBounded con.now (V.outer view.now) }
    ensures { result ≡ excluded con.now (V.boxes view.now) }
{
    match con {
        Con::LinLe { terms, bound } => {
            excludes_at_most(view, terms.items(), Number { value: *bound })
        }
        Con::LinDef { out, terms, offset } => {
            excludes_sum(view, *out, terms.items(), Number { value: *offset })
        }
        Con::ReifLe { flag, terms, bound } => {
            excludes_reified(view, *flag, terms.items(), Number { value: *bound })
        }
        Con::AndDef { flag, parts } => excludes_conjunction(view, *flag, parts.items()),
        Con::MemberDef { flag, var, set } => excludes_member(view, *flag, *var, set),
        Con::EqDef { flag, left, right } => excludes_equality(view, *flag, *left, *right),
        Con::ElementDef { out, index, items } => {
            excludes_element(view, *out, *index, items.items())
        }
        Con::CondDef { out, flag, item } => excludes_conditional(view, *out, *flag, *item),
        Con::ClauseCon { clause } => excludes_clause(view, clause.clause().literals()),
        Con::AllDiff { vars } => excludes_differing(view, vars.items()),
        Con::Pack { items } => excludes_packing(view, items.items()),
    }
}
