//! Expressions, walked once from left to right: each is typed and resolved, or the walk stops at
//! the first fault that it meets.
//!
//! `check_expr` is the entry, with one part for each kind of expression; what a kind makes of its
//! typed parts stands in `rules`. The recursion is on the tree, which nests at most `MOST_NESTING`.
ghost use Rattle.std.specs.Prelude.{◌≡◌, ◌≤◌, ◌+◌, true, length, Contains, IfOk, IfErr};
ghost use Rattle.model_limits.specs.Limits.{most_nesting};
ghost use Rattle.conf_syntax.specs.Trees.{depth, quant_depth, deepest, expr_depth};
ghost use Rattle.conf_types.specs.Checked.{scope_of, told, IsScope, IsRead, IsTypeOf, IsFilter, AreBodies, optional_reading, optional_depth, readings, quantifier_at};
ghost use Rattle.conf_types.specs.Programs.{OnFault};
ghost use Rattle.conf_types.specs.Readings.{read, needed, faults_of, alone, over_reading, right_reading, paren_reading, dot_reading, attribute_reading, minus_reading, not_reading, pair_reading, quant_reading, filter_faults, bodies_faults};
ghost use Rattle.conf_types.specs.Types.{meets, body_need};
ghost use Rattle.conf_types.specs.Operators.{class_of, right_by};

use crate::operators::{is_in, left_need, right_need};
use crate::rules::{
    Checked, attribute, class, minus, negation, number, pair, paren, quantifier, require,
    scope_over, this, truth, unknown, value, word,
};
use crate::scope::{Scope, Sense, alone, sense_of};
use crate::types::body_need;
use crate::{Need, RExpr, TypeFault};
use class_table::ClassTable;
use conf_syntax::{Expr, Ident, Node, Op, Quant, QuantKind};
use std::alloc::Global;

/// An operator, and the expressions to its left and to its right.
#[derive(Clone, Copy)]
struct Sides<'a> {
    op: Op,
    left: &'a Expr,
    right: &'a Expr,
}

/// An expression.
#[cycle(check)]
pub(crate) fn check_expr<'a>(
    alloc: Global,
    table: &ClassTable,
    scope: &Scope<'a>,
    expr: &'a Expr,
) -> Result<Checked, TypeFault>
    requires scope { IsScope table.now scope.now }
    requires room { length scope.now.locals.items + depth expr.now.node ≤ most_nesting }
    ensures read { IfOk result (λ x. IsRead x (read table.now (scope_of scope.now) expr.now)) }
    ensures exists { IfOk result (λ x. IsTypeOf table.now x.kind) }
    ensures fault { IfErr result (λ f. OnFault f
        (λ g. Contains (faults_of table.now (scope_of scope.now) expr.now) g)) }
{
    match &expr.node {
        Node::Number(value) => Ok(number(expr.at, *value)),
        Node::Truth(value) => Ok(truth(expr.at, *value)),
        Node::This => this(expr.at, scope.class),
        Node::Named(name) => word(expr.at, sense_of(table, scope, name)),
        Node::Paren(inner) => check_paren(alloc, table, scope, expr.at, inner),
        Node::Dot(inner, name) => check_dot(alloc, table, scope, expr.at, inner, name),
        Node::Minus(inner) => check_minus(alloc, table, scope, expr.at, inner),
        Node::Not(inner) => check_not(alloc, table, scope, expr.at, inner),
        Node::Pair(op, left, right) => {
            let op = *op;
            check_pair(alloc, table, scope, expr.at, Sides { op, left, right })
        }
        Node::Quant(quant) => check_quant(alloc, table, scope, expr.at, quant),
    }
}

/// An expression whose type is needed.
#[cycle(check)]
pub(crate) fn check_needed<'a>(
    alloc: Global,
    table: &ClassTable,
    scope: &Scope<'a>,
    expr: &'a Expr,
    need: Need,
) -> Result<Checked, TypeFault>
    requires scope { IsScope table.now scope.now }
    requires room { length scope.now.locals.items + depth expr.now.node ≤ most_nesting }
    ensures read { IfOk result (λ x. IsRead x (read table.now (scope_of scope.now) expr.now)) }
    ensures exists { IfOk result (λ x. IsTypeOf table.now x.kind) }
    ensures met { IfOk result (λ x. meets need x.kind ≡ true) }
    ensures fault { IfErr result (λ f. OnFault f
        (λ g. Contains (needed need (read table.now (scope_of scope.now) expr.now)) g)) }
{
    let x = match check_expr(alloc, table, scope, expr) {
        Ok(x) => x,
        Err(fault) => return Err(fault),
    };
    match require(&x, need) {
        Ok(()) => Ok(x),
        Err(fault) => Err(fault),
    }
}

/// `( .. )`.
#[cycle(check)]
fn check_paren<'a>(
    alloc: Global,
    table: &ClassTable,
    scope: &Scope<'a>,
    at: u32,
    inner: &'a Expr,
) -> Result<Checked, TypeFault>
    requires scope { IsScope table.now scope.now }
    requires room { length scope.now.locals.items + depth inner.now.node ≤ most_nesting }
    ensures read { IfOk result (λ x. IsRead x
        (paren_reading at (read table.now (scope_of scope.now) inner.now))) }
    ensures exists { IfOk result (λ x. IsTypeOf table.now x.kind) }
    ensures fault { IfErr result (λ f. OnFault f
        (λ g. Contains (paren_reading at (read table.now (scope_of scope.now) inner.now)).faults
        g)) }
{
    match check_expr(alloc, table, scope, inner) {
        Ok(x) => paren(alloc, at, x),
        Err(fault) => Err(fault),
    }
}

/// `- ..`.
#[cycle(check)]
fn check_minus<'a>(
    alloc: Global,
    table: &ClassTable,
    scope: &Scope<'a>,
    at: u32,
    inner: &'a Expr,
) -> Result<Checked, TypeFault>
    requires scope { IsScope table.now scope.now }
    requires room { length scope.now.locals.items + depth inner.now.node ≤ most_nesting }
    ensures read { IfOk result (λ x. IsRead x
        (minus_reading at (read table.now (scope_of scope.now) inner.now))) }
    ensures exists { IfOk result (λ x. IsTypeOf table.now x.kind) }
    ensures fault { IfErr result (λ f. OnFault f
        (λ g. Contains (minus_reading at (read table.now (scope_of scope.now) inner.now)).faults
        g)) }
{
    match check_needed(alloc, table, scope, inner, Need::Int) {
        Ok(x) => minus(alloc, at, x),
        Err(fault) => Err(fault),
    }
}

/// `not ..`.
#[cycle(check)]
fn check_not<'a>(
    alloc: Global,
    table: &ClassTable,
    scope: &Scope<'a>,
    at: u32,
    inner: &'a Expr,
) -> Result<Checked, TypeFault>
    requires scope { IsScope table.now scope.now }
    requires room { length scope.now.locals.items + depth inner.now.node ≤ most_nesting }
    ensures read { IfOk result (λ x. IsRead x
        (not_reading at (read table.now (scope_of scope.now) inner.now))) }
    ensures exists { IfOk result (λ x. IsTypeOf table.now x.kind) }
    ensures fault { IfErr result (λ f. OnFault f
        (λ g. Contains (not_reading at (read table.now (scope_of scope.now) inner.now)).faults g)) }
{
    match check_needed(alloc, table, scope, inner, Need::Truth) {
        Ok(x) => negation(alloc, at, x),
        Err(fault) => Err(fault),
    }
}

/// An attribute of what stands before the dot.
#[cycle(check)]
fn check_attribute<'a>(
    alloc: Global,
    table: &ClassTable,
    scope: &Scope<'a>,
    at: u32,
    inner: &'a Expr,
    name: &Ident,
) -> Result<Checked, TypeFault>
    requires scope { IsScope table.now scope.now }
    requires room { length scope.now.locals.items + depth inner.now.node ≤ most_nesting }
    ensures read { IfOk result (λ x. IsRead x (attribute_reading table.now at
        (read table.now (scope_of scope.now) inner.now) name.now
        (read table.now (scope_of scope.now) inner.now).type)) }
    ensures exists { IfOk result (λ x. IsTypeOf table.now x.kind) }
    ensures fault { IfErr result (λ f. OnFault f
        (λ g. Contains (attribute_reading table.now at (read table.now (scope_of scope.now)
        inner.now) name.now (read table.now (scope_of scope.now) inner.now).type).faults g)) }
{
    match check_expr(alloc, table, scope, inner) {
        Ok(x) => attribute(alloc, table, at, x, name),
        Err(fault) => Err(fault),
    }
}

/// `.. . NAME`: a value of an enumeration, or an attribute.
#[cycle(check)]
fn check_dot<'a>(
    alloc: Global,
    table: &ClassTable,
    scope: &Scope<'a>,
    at: u32,
    inner: &'a Expr,
    name: &Ident,
) -> Result<Checked, TypeFault>
    requires scope { IsScope table.now scope.now }
    requires room { length scope.now.locals.items + depth inner.now.node ≤ most_nesting }
    ensures read { IfOk result (λ x. IsRead x
        (dot_reading table.now at (alone table.now inner.now.node (scope_of scope.now))
        (read table.now (scope_of scope.now) inner.now) name.now)) }
    ensures exists { IfOk result (λ x. IsTypeOf table.now x.kind) }
    ensures fault { IfErr result (λ f. OnFault f
        (λ g. Contains (dot_reading table.now at (alone table.now inner.now.node
        (scope_of scope.now)) (read table.now (scope_of scope.now) inner.now) name.now).faults g)) }
{
    match alone(table, scope, inner) {
        Sense::Enumeration(enumeration) => value(table, at, enumeration, name),
        Sense::Local(_, _)
        | Sense::Own(_, _)
        | Sense::Root(_, _)
        | Sense::Class(_)
        | Sense::Nothing => check_attribute(alloc, table, scope, at, inner, name),
    }
}

/// What stands behind `in`: a class, or a list.
#[cycle(check)]
fn check_over<'a>(
    alloc: Global,
    table: &ClassTable,
    scope: &Scope<'a>,
    expr: &'a Expr,
) -> Result<Checked, TypeFault>
    requires scope { IsScope table.now scope.now }
    requires room { length scope.now.locals.items + depth expr.now.node ≤ most_nesting }
    ensures read { IfOk result (λ x. IsRead x
        (over_reading expr.now.at (alone table.now expr.now.node (scope_of scope.now))
        (read table.now (scope_of scope.now) expr.now))) }
    ensures exists { IfOk result (λ x. IsTypeOf table.now x.kind) }
    ensures met { IfOk result (λ x. meets Need.List x.kind ≡ true) }
    ensures fault { IfErr result (λ f. OnFault f
        (λ g. Contains (needed Need.List
        (over_reading expr.now.at (alone table.now expr.now.node (scope_of scope.now))
        (read table.now (scope_of scope.now) expr.now))) g)) }
{
    match alone(table, scope, expr) {
        Sense::Class(number) => Ok(class(expr.at, number)),
        Sense::Local(_, _)
        | Sense::Own(_, _)
        | Sense::Root(_, _)
        | Sense::Enumeration(_)
        | Sense::Nothing => check_needed(alloc, table, scope, expr, Need::List),
    }
}

/// What stands to the right of an operator.
#[cycle(check)]
fn check_right<'a>(
    alloc: Global,
    table: &ClassTable,
    scope: &Scope<'a>,
    op: Op,
    expr: &'a Expr,
) -> Result<Checked, TypeFault>
    requires scope { IsScope table.now scope.now }
    requires room { length scope.now.locals.items + depth expr.now.node ≤ most_nesting }
    ensures read { IfOk result (λ x. IsRead x
        (right_reading op expr.now.at (alone table.now expr.now.node (scope_of scope.now))
        (read table.now (scope_of scope.now) expr.now))) }
    ensures exists { IfOk result (λ x. IsTypeOf table.now x.kind) }
    ensures met { IfOk result (λ x. meets (right_by (class_of op)) x.kind ≡ true) }
    ensures fault { IfErr result (λ f. OnFault f
        (λ g. Contains (needed (right_by (class_of op))
        (right_reading op expr.now.at (alone table.now expr.now.node (scope_of scope.now))
        (read table.now (scope_of scope.now) expr.now))) g)) }
{
    if is_in(op) {
        check_over(alloc, table, scope, expr)
    } else {
        check_needed(alloc, table, scope, expr, right_need(op))
    }
}

/// Two expressions with an operator between them.
#[cycle(check)]
fn check_pair<'a>(
    alloc: Global,
    table: &ClassTable,
    scope: &Scope<'a>,
    at: u32,
    sides: Sides<'a>,
) -> Result<Checked, TypeFault>
    requires scope { IsScope table.now scope.now }
    requires left { length scope.now.locals.items + depth sides.left.now.node ≤ most_nesting }
    requires right { length scope.now.locals.items + depth sides.right.now.node ≤ most_nesting }
    ensures read { IfOk result (λ x. IsRead x
        (pair_reading at sides.entry.op (read table.now (scope_of scope.now) sides.entry.left.now)
        (right_reading sides.entry.op sides.entry.right.now.at
        (alone table.now sides.entry.right.now.node (scope_of scope.now))
        (read table.now (scope_of scope.now) sides.entry.right.now)))) }
    ensures exists { IfOk result (λ x. IsTypeOf table.now x.kind) }
    ensures fault { IfErr result (λ f. OnFault f
        (λ g. Contains (pair_reading at sides.entry.op
        (read table.now (scope_of scope.now) sides.entry.left.now)
        (right_reading sides.entry.op sides.entry.right.now.at
        (alone table.now sides.entry.right.now.node (scope_of scope.now))
        (read table.now (scope_of scope.now) sides.entry.right.now))).faults g)) }
{
    let x = match check_needed(alloc, table, scope, sides.left, left_need(sides.op)) {
        Ok(x) => x,
        Err(fault) => return Err(fault),
    };
    let y = match check_right(alloc, table, scope, sides.op, sides.right) {
        Ok(y) => y,
        Err(fault) => return Err(fault),
    };
    pair(alloc, at, sides.op, x, y)
}

/// A quantifier's filter.
#[cycle(check)]
fn check_filter<'a>(
    alloc: Global,
    table: &ClassTable,
    scope: &Scope<'a>,
    filter: &'a Option<Expr>,
) -> Result<Option<RExpr>, TypeFault>
    requires scope { IsScope table.now scope.now }
    requires room { length scope.now.locals.items + optional_depth filter.now ≤ most_nesting }
    ensures read { IfOk result (λ x. IsFilter x (optional_reading table.now (scope_of scope.now)
        filter.now)) }
    ensures fault { IfErr result (λ f. OnFault f
        (λ g. Contains (filter_faults (optional_reading table.now (scope_of scope.now) filter.now))
        g)) }
{
    match filter {
        Some(expr) => match check_needed(alloc, table, scope, expr, Need::Truth) {
            Ok(x) => Ok(Some(x.expr)),
            Err(fault) => Err(fault),
        },
        None => Ok(None),
    }
}

/// A quantifier's bodies.
#[cycle(check)]
fn check_bodies<'a>(
    alloc: Global,
    table: &ClassTable,
    scope: &Scope<'a>,
    kind: QuantKind,
    body: &'a [Expr],
) -> Result<Vec<RExpr>, TypeFault>
    requires scope { IsScope table.now scope.now }
    requires room { length scope.now.locals.items + deepest expr_depth body.now ≤ most_nesting }
    ensures read { IfOk result (λ xs. AreBodies kind xs.items
        (readings table.now (scope_of scope.now) body.now) 0) }
    ensures fault { IfErr result (λ f. OnFault f
        (λ g. Contains (bodies_faults kind (readings table.now (scope_of scope.now) body.now) 0)
        g)) }
{
    let mut found = Vec::new(alloc);
    for (k, expr) in body.iter().enumerate() {
        match check_needed(alloc, table, scope, expr, body_need(kind, k)) {
            Ok(x) => found.push(x.expr)?,
            Err(fault) => return Err(fault),
        }
    }
    Ok(found)
}

/// The parts of a quantifier, from left to right.
#[cycle(check)]
fn check_parts<'a>(
    alloc: Global,
    table: &ClassTable,
    scope: &Scope<'a>,
    at: u32,
    quant: &'a Quant,
) -> Result<Checked, TypeFault>
    requires scope { IsScope table.now scope.now }
    requires room { length scope.now.locals.items + 1 + quant_depth quant.now ≤ most_nesting }
    ensures read { IfOk result (λ x. IsRead x (quantifier_at table.now at (scope_of scope.now)
        quant.now)) }
    ensures exists { IfOk result (λ x. IsTypeOf table.now x.kind) }
    ensures fault { IfErr result (λ f. OnFault f
        (λ g. Contains (quantifier_at table.now at (scope_of scope.now) quant.now).faults g)) }
{
    if let Err(fault) = unknown(sense_of(table, scope, &quant.var.name), quant.var.at) {
        return Err(fault);
    }
    let over = match check_over(alloc, table, scope, &quant.over) {
        Ok(over) => over,
        Err(fault) => return Err(fault),
    };
    let inner = scope_over(alloc, table, scope, &quant.var.name, over.kind)?;
    let filter = match check_filter(alloc, table, &inner, &quant.filter) {
        Ok(filter) => filter,
        Err(fault) => return Err(fault),
    };
    let body = match check_bodies(alloc, table, &inner, quant.kind, &quant.body) {
        Ok(body) => body,
        Err(fault) => return Err(fault),
    };
    quantifier(alloc, at, quant.kind, over, filter, body)
}

/// A quantifier.
#[cycle(check)]
fn check_quant<'a>(
    alloc: Global,
    table: &ClassTable,
    scope: &Scope<'a>,
    at: u32,
    quant: &'a Quant,
) -> Result<Checked, TypeFault>
    requires scope { IsScope table.now scope.now }
    requires room { length scope.now.locals.items + 1 + quant_depth quant.now ≤ most_nesting }
    ensures read { IfOk result (λ x. IsRead x (quant_reading table.now quant.now at
        (scope_of scope.now))) }
    ensures exists { IfOk result (λ x. IsTypeOf table.now x.kind) }
    ensures fault { IfErr result (λ f. OnFault f
        (λ g. Contains (quant_reading table.now quant.now at (scope_of scope.now)).faults g)) }
{
    match check_parts(alloc, table, scope, at, quant) {
        Ok(x) => Ok(x),
        Err(fault) => Err(fault),
    }
}
