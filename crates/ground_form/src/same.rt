//! Whether two constraints are the same.
//!
//! Equal constraints say the same, so one of two definitions that are equal but for their variable
//! can be shared.
ghost use Rattle.std.specs.Prelude.{◌≡◌, ◌↔◌, IsTrue};
ghost use Rattle.ground_form.specs.declared.con.Con.TheVariants.{LinLe, LinDef, ReifLe, AndDef, MemberDef, EqDef, ElementDef, CondDef, ClauseCon, AllDiff, Pack};

use crate::con::Con;
use crate::lists::{PackItems, Parts, Terms, VarList};
use signed_clause::{Clause, IntSet};

impl Con {
    /// Whether the other is the same constraint: of the same kind, with the same fields.
    pub fn same(&self, o: &Con) -> bool
        ensures { IsTrue result ↔ (self.now ≡ o.now) }
    {
        match self {
            Con::LinLe { terms, bound } => is_at_most(o, terms, *bound),
            Con::LinDef { out, terms, offset } => is_sum(o, *out, terms, *offset),
            Con::ReifLe { flag, terms, bound } => is_reified(o, *flag, terms, *bound),
            Con::AndDef { flag, parts } => is_conjunction(o, *flag, parts),
            Con::MemberDef { flag, var, set } => is_member(o, *flag, *var, set),
            Con::EqDef { flag, left, right } => is_equality(o, *flag, *left, *right),
            Con::ElementDef { out, index, items } => is_element(o, *out, *index, items),
            Con::CondDef { out, flag, item } => is_conditional(o, *out, *flag, *item),
            Con::ClauseCon { clause } => is_clause(o, clause.clause()),
            Con::AllDiff { vars } => is_differing(o, vars),
            Con::Pack { items } => is_packing(o, items),
        }
    }
}

/// Whether it is that sum with a bound.
fn is_at_most(con: &Con, terms: &Terms, bound: i64) -> bool
    ensures { IsTrue result ↔ (LinLe terms.now bound ≡ con.now) }
{
    match con {
        Con::LinLe { terms: t, bound: b } => *b == bound && t.same(terms),
        _ => false,
    }
}

/// Whether it defines the variable as that sum.
fn is_sum(con: &Con, out: u32, terms: &Terms, offset: i64) -> bool
    ensures { IsTrue result ↔ (LinDef out terms.now offset ≡ con.now) }
{
    match con {
        Con::LinDef {
            out: x,
            terms: t,
            offset: b,
        } => *x == out && *b == offset && t.same(terms),
        _ => false,
    }
}

/// Whether it defines the flag by that sum and bound.
fn is_reified(con: &Con, flag: u32, terms: &Terms, bound: i64) -> bool
    ensures { IsTrue result ↔ (ReifLe flag terms.now bound ≡ con.now) }
{
    match con {
        Con::ReifLe {
            flag: x,
            terms: t,
            bound: b,
        } => *x == flag && *b == bound && t.same(terms),
        _ => false,
    }
}

/// Whether it defines the flag as that conjunction.
fn is_conjunction(con: &Con, flag: u32, parts: &Parts) -> bool
    ensures { IsTrue result ↔ (AndDef flag parts.now ≡ con.now) }
{
    match con {
        Con::AndDef { flag: x, parts: p } => *x == flag && p.same(parts),
        _ => false,
    }
}

/// Whether it defines the flag as membership of the variable in the set.
fn is_member(con: &Con, flag: u32, var: u32, set: &IntSet) -> bool
    ensures { IsTrue result ↔ (MemberDef flag var set.now ≡ con.now) }
{
    match con {
        Con::MemberDef {
            flag: x,
            var: y,
            set: s,
        } => *x == flag && *y == var && s.same(set),
        _ => false,
    }
}

/// Whether it defines the flag as equality of the two variables, in this order.
fn is_equality(con: &Con, flag: u32, left: u32, right: u32) -> bool
    ensures { IsTrue result ↔ (EqDef flag left right ≡ con.now) }
{
    match con {
        Con::EqDef {
            flag: x,
            left: y,
            right: z,
        } => *x == flag && *y == left && *z == right,
        _ => false,
    }
}

/// Whether it defines the variable as the item that the index picks.
fn is_element(con: &Con, out: u32, index: u32, items: &Terms) -> bool
    ensures { IsTrue result ↔ (ElementDef out index items.now ≡ con.now) }
{
    match con {
        Con::ElementDef {
            out: x,
            index: y,
            items: t,
        } => { *x == out && *y == index && t.same(items) }
        _ => false,
    }
}

/// Whether it defines the variable as the item where the flag is set.
fn is_conditional(con: &Con, out: u32, flag: u32, item: u32) -> bool
    ensures { IsTrue result ↔ (CondDef out flag item ≡ con.now) }
{
    match con {
        Con::CondDef {
            out: x,
            flag: y,
            item: z,
        } => *x == out && *y == flag && *z == item,
        _ => false,
    }
}

/// Whether it is that clause.
fn is_clause(con: &Con, clause: &Clause) -> bool
    ensures { IsTrue result ↔ (ClauseCon clause.now ≡ con.now) }
{
    match con {
        Con::ClauseCon { clause: c } => c.clause().same(clause),
        _ => false,
    }
}

/// Whether it says that these variables differ.
fn is_differing(con: &Con, vars: &VarList) -> bool
    ensures { IsTrue result ↔ (AllDiff vars.now ≡ con.now) }
{
    match con {
        Con::AllDiff { vars: v } => v.same(vars),
        _ => false,
    }
}

/// Whether it packs these items.
fn is_packing(con: &Con, items: &PackItems) -> bool
    ensures { IsTrue result ↔ (Pack items.now ≡ con.now) }
{
    match con {
        Con::Pack { items: i } => i.same(items),
        _ => false,
    }
}
