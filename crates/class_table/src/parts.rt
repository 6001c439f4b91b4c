//! The classes, enumerations and top-level variables of a model, resolved item by item.
ghost use Rattle.std.specs.Prelude.{◌≡◌, ◌++◌, [], length, map, Contains, IfOk, IfErr, OnOk};
ghost use Rattle.std.specs.List.{flat_map};
ghost use Rattle.class_table.specs.Names.{classes, enumerations, roots, item_class, item_enumeration, item_root};
ghost use Rattle.class_table.specs.Outline.{variable_of, class_of, enumeration_of};
ghost use Rattle.class_table.specs.Faults.{OnFault, item_faults, IsNumbered, pointed};

use crate::names::Space;
use crate::resolve::{resolve_class, resolve_enumeration, resolve_variable};
use crate::{Class, Enumeration, TableFault, Variable};
use conf_syntax::{ClassDecl, Item};
use std::alloc::{AllocError, Global};

/// What a model declares, resolved, each kind in order of declaration.
#[derive(Drop)]
pub(crate) struct Parts {
    pub classes: Vec<Class>,
    pub enumerations: Vec<Enumeration>,
    pub roots: Vec<Variable>,
}

/// The declarations of classes, in order.
pub(crate) fn class_decls(alloc: Global, items: &[Item]) -> Result<Vec<&ClassDecl>, AllocError>
    ensures decls { IfOk result (λ decls. pointed decls.items ≡ classes items.now) }
{
    let mut decls = Vec::new(alloc);
    for item in items {
        if let Item::Class(decl) = item {
            decls.push(decl)?;
        }
    }
    Ok(decls)
}

/// Adds what an item declares, resolved.
fn resolve_item(
    alloc: Global,
    names: &Space,
    decls: &[&ClassDecl],
    item: &Item,
    parts: &mut Parts,
) -> Result<(), TableFault>
    requires numbered { IsNumbered names.now.entries (length decls.now) }
    ensures classes { OnOk result (parts.new.classes.items ≡ parts.old.classes.items
        ++ map (class_of names.now.entries) (item_class item.now)) }
    ensures enumerations { OnOk result (parts.new.enumerations.items ≡ parts.old.enumerations.items
        ++ map enumeration_of (item_enumeration item.now)) }
    ensures roots { OnOk result (parts.new.roots.items ≡ parts.old.roots.items
        ++ map (variable_of names.now.entries) (item_root item.now)) }
    ensures right { OnOk result (item_faults names.now.entries (pointed decls.now) item.now ≡ []) }
    ensures fault { IfErr result (λ fault. OnFault fault
        (λ f. Contains (item_faults names.now.entries (pointed decls.now) item.now) f)) }
{
    match item {
        Item::Class(decl) => match resolve_class(alloc, names, decls, decl) {
            Ok(class) => parts.classes.push(class)?,
            Err(fault) => return Err(fault),
        },
        Item::Enum(decl) => match resolve_enumeration(alloc, decl) {
            Ok(enumeration) => parts.enumerations.push(enumeration)?,
            Err(fault) => return Err(fault),
        },
        Item::Var(decl) => match resolve_variable(alloc, names, decls, decl) {
            Ok(variable) => parts.roots.push(variable)?,
            Err(fault) => return Err(fault),
        },
        Item::Where(_) | Item::Goal(_) => {}
    }
    Ok(())
}

/// What the items declare, resolved.
pub(crate) fn resolve_items(
    alloc: Global,
    names: &Space,
    decls: &[&ClassDecl],
    items: &[Item],
) -> Result<Parts, TableFault>
    requires numbered { IsNumbered names.now.entries (length decls.now) }
    ensures classes { IfOk result (λ parts. parts.classes.items ≡ map (class_of names.now.entries)
        (classes items.now)) }
    ensures enumerations { IfOk result (λ parts. parts.enumerations.items
        ≡ map enumeration_of (enumerations items.now)) }
    ensures roots { IfOk result (λ parts. parts.roots.items ≡ map (variable_of names.now.entries)
        (roots items.now)) }
    ensures right { OnOk result (flat_map (item_faults names.now.entries (pointed decls.now))
        items.now ≡ []) }
    ensures fault { IfErr result (λ fault. OnFault fault
        (λ f. Contains (flat_map (item_faults names.now.entries (pointed decls.now)) items.now)
        f)) }
{
    let mut parts = Parts {
        classes: Vec::new(alloc),
        enumerations: Vec::new(alloc),
        roots: Vec::new(alloc),
    };
    for item in items {
        if let Err(fault) = resolve_item(alloc, names, decls, item, &mut parts) {
            return Err(fault);
        }
    }
    Ok(parts)
}
