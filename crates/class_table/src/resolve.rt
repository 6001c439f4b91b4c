//! Names in shapes and behind `extends`, resolved to numbers.
//!
//! `resolve_class`, `resolve_enumeration` and `resolve_variable` are the entries, one for each kind
//! of declaration. Each answers what the declaration stands for, or the first fault at a name or
//! range within it.
ghost use Rattle.std.specs.Prelude.{◌≡◌, ◌≤◌, ◌<◌, ◌++◌, ◌∷◌, [], None, Some, true, false, length, map, Contains, IfOk, IfErr, OnOk, int_le};
ghost use Rattle.std.specs.List.{flat_map};
ghost use Rattle.class_table.specs.declared.fault.TableFault.TheVariants.{Duplicate};
ghost use Rattle.class_table.specs.Names.{means, own, member_variable};
ghost use Rattle.class_table.specs.Outline.{bound_value, resolved, named, of_class, class_meant, parent_named, variable_of, class_of, enumeration_of, value_name};
ghost use Rattle.class_table.specs.Faults.{OnFault, is_abstract, named_faults, many_faults, class_faults, shape_faults, parent_faults, member_faults, taken, repeated, IsNumbered, pointed};
ghost use Rattle.conf_syntax.specs.OnlyIf.{only_if};

use crate::names::{NameMeaning, Space};
use crate::{Class, Enumeration, Resolved, TableFault, Values, Variable, Variables};
use conf_syntax::{Bound, ClassDecl, EnumDecl, Ident, Member, Name, Shape, VarDecl};
use model_limits::{GREATEST_INT, LEAST_INT};
use std::alloc::Global;

/// What a name means.
fn meaning_of(names: &Space, name: &Name) -> Option<NameMeaning>
    ensures { result ≡ means names.now.entries name.now }
{
    names.get(name).copied()
}

/// The value of a range's end.
fn bound_value(bound: &Bound) -> i64
    ensures { result ≡ bound_value bound.now }
{
    let value = i64::from(bound.value);
    if bound.minus { -value } else { value }
}

/// The values of a range.
fn span(low: &Bound, high: &Bound) -> Result<Resolved, TableFault>
    ensures span { IfOk result (λ shape. shape ≡ Resolved.Span (bound_value low.now)
        (bound_value high.now)) }
    ensures right { OnOk result (int_le (bound_value low.now) (bound_value high.now) ≡ true) }
    ensures empty { IfErr result (λ fault. int_le (bound_value low.now) (bound_value high.now)
        ≡ false) }
    ensures fault { IfErr result (λ fault. fault ≡ TableFault.EmptyRange low.now.at) }
{
    let (least, greatest) = (bound_value(low), bound_value(high));
    if least <= greatest {
        Ok(Resolved::Span(least, greatest))
    } else {
        Err(TableFault::EmptyRange(low.at))
    }
}

/// The class that a name means.
fn class_named(names: &Space, ident: &Ident) -> Result<u32, TableFault>
    ensures class { IfOk result (λ class. means names.now.entries ident.now.name
        ≡ Some (NameMeaning.Class class)) }
    ensures fault { IfErr result (λ fault. class_faults ident.now
        (means names.now.entries ident.now.name) ≡ fault ∷ []) }
{
    match meaning_of(names, &ident.name) {
        Some(NameMeaning::Class(class)) => Ok(class),
        Some(NameMeaning::Enumeration(_) | NameMeaning::Variable(_)) => Err(TableFault::NotAClass(
            ident.at,
        )),
        None => Err(TableFault::Unknown(ident.at)),
    }
}

/// The class of which an object is declared, where it isn't abstract.
#[tactic(auto, using(crate::proofs::ResolveLaws::abstract_at))]
fn object_class(decls: &[&ClassDecl], ident: &Ident, class: u32) -> Result<u32, TableFault>
    requires within { class < length decls.now }
    ensures class { IfOk result (λ c. c ≡ class) }
    ensures right { OnOk result (only_if (is_abstract (pointed decls.now) class)
        (TableFault.AbstractObject ident.now.at) ≡ []) }
    ensures fault { IfErr result (λ fault. only_if (is_abstract (pointed decls.now) class)
        (TableFault.AbstractObject ident.now.at) ≡ fault ∷ []) }
{
    if decls[class as usize].is_abstract {
        Err(TableFault::AbstractObject(ident.at))
    } else {
        Ok(class)
    }
}

/// The shape `NAME`.
fn named(names: &Space, decls: &[&ClassDecl], ident: &Ident) -> Result<Resolved, TableFault>
    requires numbered { IsNumbered names.now.entries (length decls.now) }
    ensures shape { IfOk result (λ shape. shape ≡ named (means names.now.entries ident.now.name)) }
    ensures right { OnOk result (named_faults (pointed decls.now) ident.now
        (means names.now.entries ident.now.name) ≡ []) }
    ensures fault { IfErr result (λ fault. named_faults (pointed decls.now) ident.now
        (means names.now.entries ident.now.name) ≡ fault ∷ []) }
{
    match meaning_of(names, &ident.name) {
        Some(NameMeaning::Class(class)) => match object_class(decls, ident, class) {
            Ok(class) => Ok(Resolved::One(class)),
            Err(fault) => Err(fault),
        },
        Some(NameMeaning::Enumeration(enumeration)) => Ok(Resolved::Choice(enumeration)),
        Some(NameMeaning::Variable(_)) => Err(TableFault::NotAClass(ident.at)),
        None => Err(TableFault::Unknown(ident.at)),
    }
}

/// The shape `NAME[count]`.
fn many(
    names: &Space,
    decls: &[&ClassDecl],
    ident: &Ident,
    count: u32,
) -> Result<Resolved, TableFault>
    requires numbered { IsNumbered names.now.entries (length decls.now) }
    ensures shape { IfOk result (λ shape. shape ≡ of_class (λ c. Resolved.Many c count)
        (means names.now.entries ident.now.name)) }
    ensures right { OnOk result (many_faults (pointed decls.now) ident.now
        (means names.now.entries ident.now.name) ≡ []) }
    ensures fault { IfErr result (λ fault. many_faults (pointed decls.now) ident.now
        (means names.now.entries ident.now.name) ≡ fault ∷ []) }
{
    match meaning_of(names, &ident.name) {
        Some(NameMeaning::Class(class)) => match object_class(decls, ident, class) {
            Ok(class) => Ok(Resolved::Many(class, count)),
            Err(fault) => Err(fault),
        },
        Some(NameMeaning::Enumeration(_) | NameMeaning::Variable(_)) => Err(TableFault::NotAClass(
            ident.at,
        )),
        None => Err(TableFault::Unknown(ident.at)),
    }
}

/// The shape of a variable.
fn shape_of(names: &Space, decls: &[&ClassDecl], shape: &Shape) -> Result<Resolved, TableFault>
    requires numbered { IsNumbered names.now.entries (length decls.now) }
    ensures shape { IfOk result (λ found. found ≡ resolved names.now.entries shape.now) }
    ensures right { OnOk result (shape_faults names.now.entries (pointed decls.now) shape.now
        ≡ []) }
    ensures fault { IfErr result (λ fault. shape_faults names.now.entries (pointed decls.now)
        shape.now ≡ fault ∷ []) }
{
    match shape {
        Shape::Range(low, high) => span(low, high),
        Shape::Int => Ok(Resolved::Span(LEAST_INT, GREATEST_INT)),
        Shape::Bool => Ok(Resolved::Truth),
        Shape::Named(ident) => named(names, decls, ident),
        Shape::Many(ident, count) => many(names, decls, ident, *count),
        Shape::Ref(ident) => match class_named(names, ident) {
            Ok(class) => Ok(Resolved::Ref(class)),
            Err(fault) => Err(fault),
        },
        Shape::RefSet(ident, count) => match class_named(names, ident) {
            Ok(class) => Ok(Resolved::RefSet(class, *count)),
            Err(fault) => Err(fault),
        },
    }
}

/// The number of a class's parent.
fn parent_of(names: &Space, parent: &Option<Ident>) -> Result<Option<u32>, TableFault>
    ensures parent { IfOk result (λ found. found ≡ parent_named names.now.entries parent.now) }
    ensures right { OnOk result (parent_faults names.now.entries parent.now ≡ []) }
    ensures fault { IfErr result (λ fault. parent_faults names.now.entries parent.now
        ≡ fault ∷ []) }
{
    match parent {
        Some(ident) => match class_named(names, ident) {
            Ok(class) => Ok(Some(class)),
            Err(fault) => Err(fault),
        },
        None => Ok(None),
    }
}

/// Refuses an attribute that is named as a class or an enumeration.
fn untaken(names: &Space, ident: &Ident) -> Result<(), TableFault>
    ensures right { OnOk result (taken ident.now (means names.now.entries ident.now.name) ≡ []) }
    ensures fault { IfErr result (λ fault. taken ident.now (means names.now.entries ident.now.name)
        ≡ fault ∷ []) }
{
    match meaning_of(names, &ident.name) {
        Some(NameMeaning::Class(_) | NameMeaning::Enumeration(_)) => Err(TableFault::Duplicate(
            ident.at,
        )),
        Some(NameMeaning::Variable(_)) | None => Ok(()),
    }
}

/// A variable of the top level, or of a class.
pub(crate) fn resolve_variable(
    alloc: Global,
    names: &Space,
    decls: &[&ClassDecl],
    decl: &VarDecl,
) -> Result<Variable, TableFault>
    requires numbered { IsNumbered names.now.entries (length decls.now) }
    ensures variable { IfOk result (λ variable. variable ≡ variable_of names.now.entries decl.now) }
    ensures right { OnOk result (shape_faults names.now.entries (pointed decls.now) decl.now.shape
        ≡ []) }
    ensures fault { IfErr result (λ fault. OnFault fault (λ f. shape_faults names.now.entries
        (pointed decls.now) decl.now.shape ≡ f ∷ [])) }
{
    let shape = match shape_of(names, decls, &decl.shape) {
        Ok(shape) => shape,
        Err(fault) => return Err(fault),
    };
    Ok(Variable {
        name: Name::of(alloc, decl.name.name.as_bytes())?,
        shape,
    })
}

/// Adds a member's attribute, where it declares one.
fn add_member(
    alloc: Global,
    names: &Space,
    decls: &[&ClassDecl],
    member: &Member,
    found: &mut Vec<Variable>,
) -> Result<(), TableFault>
    requires numbered { IsNumbered names.now.entries (length decls.now) }
    ensures added { OnOk result (found.new.items ≡ found.old.items
        ++ map (variable_of names.now.entries) (member_variable member.now)) }
    ensures right { OnOk result (member_faults names.now.entries (pointed decls.now) member.now
        ≡ []) }
    ensures fault { IfErr result (λ fault. OnFault fault
        (λ f. Contains (member_faults names.now.entries (pointed decls.now) member.now) f)) }
{
    let Member::Var(decl) = member else {
        return Ok(());
    };
    if let Err(fault) = untaken(names, &decl.name) {
        return Err(fault);
    }
    match resolve_variable(alloc, names, decls, decl) {
        Ok(variable) => found.push(variable)?,
        Err(fault) => return Err(fault),
    }
    Ok(())
}

/// The attributes that a class's members declare.
fn resolve_members(
    alloc: Global,
    names: &Space,
    decls: &[&ClassDecl],
    members: &[Member],
) -> Result<Vec<Variable>, TableFault>
    requires numbered { IsNumbered names.now.entries (length decls.now) }
    ensures own { IfOk result (λ found. found.items ≡ map (variable_of names.now.entries)
        (flat_map member_variable members.now)) }
    ensures right { OnOk result (flat_map (member_faults names.now.entries (pointed decls.now))
        members.now ≡ []) }
    ensures fault { IfErr result (λ fault. OnFault fault
        (λ f. Contains (flat_map (member_faults names.now.entries (pointed decls.now)) members.now)
        f)) }
{
    let mut found = Vec::new(alloc);
    for member in members {
        if let Err(fault) = add_member(alloc, names, decls, member, &mut found) {
            return Err(fault);
        }
    }
    Ok(found)
}

/// A class, resolved.
pub(crate) fn resolve_class(
    alloc: Global,
    names: &Space,
    decls: &[&ClassDecl],
    decl: &ClassDecl,
) -> Result<Class, TableFault>
    requires numbered { IsNumbered names.now.entries (length decls.now) }
    ensures class { IfOk result (λ class. class ≡ class_of names.now.entries decl.now) }
    ensures right { OnOk result (parent_faults names.now.entries decl.now.parent
        ++ flat_map (member_faults names.now.entries (pointed decls.now)) decl.now.members ≡ []) }
    ensures fault { IfErr result (λ fault. OnFault fault
        (λ f. Contains (parent_faults names.now.entries decl.now.parent
        ++ flat_map (member_faults names.now.entries (pointed decls.now)) decl.now.members) f)) }
{
    let parent = match parent_of(names, &decl.parent) {
        Ok(parent) => parent,
        Err(fault) => return Err(fault),
    };
    let own = match resolve_members(alloc, names, decls, decl.members.items()) {
        Ok(own) => own,
        Err(fault) => return Err(fault),
    };
    Ok(Class {
        name: Name::of(alloc, decl.name.name.as_bytes())?,
        parent,
        own: Variables::of(own),
    })
}

/// The values of an enumeration.
fn resolve_values(alloc: Global, idents: &[Ident]) -> Result<Values, TableFault>
    ensures values { IfOk result (λ values. values ≡ map value_name idents.now) }
    ensures right { OnOk result (repeated idents.now [] ≡ []) }
    ensures fault { IfErr result (λ fault. OnFault fault
        (λ f. Contains (map Duplicate (repeated idents.now [])) f)) }
{
    let mut values = Values::new(alloc);
    for ident in idents {
        if !values.insert(Name::of(alloc, ident.name.as_bytes())?)? {
            return Err(TableFault::Duplicate(ident.at));
        }
    }
    Ok(values)
}

/// An enumeration, resolved.
pub(crate) fn resolve_enumeration(alloc: Global, decl: &EnumDecl) -> Result<Enumeration, TableFault>
    ensures enumeration { IfOk result (λ enumeration. enumeration ≡ enumeration_of decl.now) }
    ensures right { OnOk result (map Duplicate (repeated decl.now.values []) ≡ []) }
    ensures fault { IfErr result (λ fault. OnFault fault
        (λ f. Contains (map Duplicate (repeated decl.now.values [])) f)) }
{
    let values = match resolve_values(alloc, decl.values.items()) {
        Ok(values) => values,
        Err(fault) => return Err(fault),
    };
    Ok(Enumeration {
        name: Name::of(alloc, decl.name.name.as_bytes())?,
        values,
    })
}
