//! What a word at the head of an expression means where it stands.
//!
//! `sense_of` is the entry. The look-ups are by hash but for the variables of the quantifiers round
//! an expression, which are fewer than the nodes that it may nest.
ghost use Rattle.std.specs.Prelude.{◌≡◌, ◌<◌, ◌≤◌, ◌+◌, ℕ, Some, cond, length, IfOk, IfSome};
ghost use Rattle.model_limits.specs.Limits.{most_nesting};
ghost use Rattle.class_table.specs.Names.{means};
ghost use Rattle.class_table.specs.Outline.{Outline};
ghost use Rattle.class_table.specs.Same.{same_name};
ghost use Rattle.class_table.specs.Tables.{IsShapeOf};
ghost use Rattle.conf_syntax.specs.Trees.{depth};
ghost use Rattle.conf_types.specs.Checked.{scope_of, local_of, locals_of, told, IsScope, IsSenseOf, AreLocals};
ghost use Rattle.conf_types.specs.Scopes.{ALocal, attribute_named, own_named, own_or, local_or, declared_sense, sense, within};
ghost use Rattle.conf_types.specs.Readings.{alone};

use class_table::{ClassTable, NameMeaning, Resolved};
use conf_syntax::{Expr, Name, Node};
use std::alloc::{AllocError, Global};

/// An attribute, by its number, with its shape.
#[derive(Clone, Copy, Debug, PartialEq, Eq)]
pub struct Found {
    pub number: u32,
    pub shape: Resolved,
}

/// A quantifier's variable, an object of this class.
#[derive(Clone, Copy)]
pub(crate) struct Local<'a> {
    pub name: &'a Name,
    pub class: u32,
}

/// Where an expression stands: in which class, and in which quantifiers, the innermost last.
#[derive(Drop)]
pub(crate) struct Scope<'a> {
    pub class: Option<u32>,
    pub locals: Vec<Local<'a>>,
}

/// What a word means.
#[derive(Clone, Copy)]
pub(crate) enum Sense {
    /// A quantifier's variable by its distance, 0 for the innermost, an object of this class.
    Local(u32, u32),
    /// An attribute of `this`.
    Own(u32, Resolved),
    /// A top-level variable.
    Root(u32, Resolved),
    Enumeration(u32),
    Class(u32),
    Nothing,
}

/// The scope inside of a quantifier.
pub(crate) fn scope_within<'a>(
    alloc: Global,
    scope: &Scope<'a>,
    name: &'a Name,
    class: u32,
) -> Result<Scope<'a>, AllocError>
    ensures scope { IfOk result (λ inner. scope_of inner ≡ within (scope_of scope.now) name.now
        (Some class)) }
    ensures more { IfOk result (λ inner. length inner.locals.items ≡ length scope.now.locals.items
        + 1) }
    ensures class { IfOk result (λ inner. inner.class ≡ scope.now.class) }
    ensures locals { IfOk result (λ inner. (n : ℕ) → AreLocals n scope.now.locals.items → class < n
        → AreLocals n inner.locals.items) }
{
    let mut locals = Vec::with_capacity(alloc, scope.locals.len() + 1)?;
    for local in &scope.locals {
        locals.push(*local)?;
    }
    locals.push(Local { name, class })?;
    Ok(Scope {
        class: scope.class,
        locals,
    })
}

/// The attribute of this name of a class.
pub(crate) fn attribute_of(table: &ClassTable, class: u32, name: &Name) -> Option<Found>
    requires class { class < length table.now.classes }
    ensures found { result ≡ attribute_named table.now class name.now }
    ensures exists { IfSome result (λ f. IsShapeOf (length table.now.classes)
        (length table.now.enumerations) f.shape) }
{
    match table.attribute_named(class, name) {
        Some(number) => Some(Found {
            number,
            shape: table.attribute(class, number).shape,
        }),
        None => None,
    }
}

/// The attribute of this name of the class where an expression stands.
fn own_named(table: &ClassTable, class: Option<u32>, name: &Name) -> Option<Found>
    requires class { IfSome class (λ c. c < length table.now.classes) }
    ensures found { result ≡ own_named table.now class name.now }
    ensures exists { IfSome result (λ f. IsShapeOf (length table.now.classes)
        (length table.now.enumerations) f.shape) }
{
    match class {
        Some(class) => attribute_of(table, class, name),
        None => None,
    }
}

/// What a name of the one space of classes, enumerations and top-level variables means.
fn declared_sense(table: &ClassTable, name: &Name) -> Sense
    ensures sense { told result ≡ declared_sense table.now (means table.now.names name.now) }
    ensures exists { IsSenseOf table.now result }
{
    match table.meaning(name) {
        Some(NameMeaning::Variable(root)) => Sense::Root(root, table.root(root).shape),
        Some(NameMeaning::Enumeration(enumeration)) => Sense::Enumeration(enumeration),
        Some(NameMeaning::Class(class)) => Sense::Class(class),
        None => Sense::Nothing,
    }
}

/// The attribute, where there is one.
fn own_or(other: Sense, own: Option<Found>) -> Sense
    ensures sense { told result ≡ own_or (told other) own }
    ensures exists { (o : Outline) → IsSenseOf o other
        → IfSome own (λ f. IsShapeOf (length o.classes) (length o.enumerations) f.shape)
        → IsSenseOf o result }
{
    match own {
        Some(found) => Sense::Own(found.number, found.shape),
        None => other,
    }
}

/// The variable, where it has this name. So many variables stand behind it.
fn local_or(other: Sense, name: &Name, local: &Local<'_>, behind: usize) -> Sense
    requires few { behind < most_nesting }
    ensures sense { told result ≡ cond (same_name name.now local.now.name.now)
        (ALocal behind (Some local.now.class)) (told other) }
    ensures exists { (o : Outline) → IsSenseOf o other → local.now.class < length o.classes
        → IsSenseOf o result }
{
    if name == local.name {
        Sense::Local(behind as u32, local.class)
    } else {
        other
    }
}

/// The innermost variable of this name, where there is one.
fn nearest(other: Sense, name: &Name, locals: &[Local<'_>]) -> Sense
    requires few { length locals.now ≤ most_nesting }
    ensures sense { told result ≡ local_or (told other) name.now (locals_of locals.now) }
    ensures exists { (o : Outline) → IsSenseOf o other → AreLocals (length o.classes) locals.now
        → IsSenseOf o result }
{
    let mut found = other;
    for (k, local) in locals.iter().enumerate() {
        found = local_or(found, name, local, locals.len() - 1 - k);
    }
    found
}

/// What a word means in a scope.
pub(crate) fn sense_of(table: &ClassTable, scope: &Scope<'_>, name: &Name) -> Sense
    requires scope { IsScope table.now scope.now }
    requires few { length scope.now.locals.items ≤ most_nesting }
    ensures sense { told result ≡ sense table.now (scope_of scope.now) name.now }
    ensures exists { IsSenseOf table.now result }
{
    let declared = declared_sense(table, name);
    let own = own_named(table, scope.class, name);
    nearest(own_or(declared, own), name, &scope.locals)
}

/// What a whole expression means, where it is a word alone.
pub(crate) fn alone(table: &ClassTable, scope: &Scope<'_>, expr: &Expr) -> Sense
    requires scope { IsScope table.now scope.now }
    requires few { length scope.now.locals.items ≤ most_nesting }
    ensures sense { told result ≡ alone table.now expr.now.node (scope_of scope.now) }
    ensures exists { IsSenseOf table.now result }
{
    match &expr.node {
        Node::Named(name) => sense_of(table, scope, name),
        Node::Number(_)
        | Node::Truth(_)
        | Node::This
        | Node::Paren(_)
        | Node::Dot(_, _)
        | Node::Minus(_)
        | Node::Not(_)
        | Node::Pair(_, _, _)
        | Node::Quant(_) => Sense::Nothing,
    }
}
