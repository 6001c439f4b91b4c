//! The one space of names that classes, enumerations and top-level variables share.
//!
//! `names_of` is the entry: it numbers the declarations of each kind in their order, and refuses a
//! name that is declared twice.
ghost use Rattle.std.specs.Prelude.{◌≡◌, ◌<◌, ◌≤◌, ◌+◌, ◌-◌, ◌^◌, ◌++◌, ◌∷◌, [], List, true, false, length, map, Contains, IfOk, IfErr, OnOk};
ghost use Rattle.std.specs.List.{list_any};
ghost use Rattle.std.specs.Map.{keys_of};
ghost use Rattle.conf_syntax.specs.declared.tree.Item.{Item as AnItem};
ghost use Rattle.class_table.specs.declared.fault.TableFault.TheVariants.{Duplicate};
ghost use Rattle.class_table.specs.Names.{same_name, space, space_from, declared};
ghost use Rattle.class_table.specs.Faults.{OnFault, repeated};

use crate::TableFault;
use conf_syntax::{Ident, Item, Name};
use indexmap::IndexMap;
use std::alloc::Global;

/// What a name of the one space means, by its number among its kind in order of declaration.
#[derive(Clone, Copy, Debug, PartialEq, Eq)]
pub enum NameMeaning {
    Class(u32),
    Enumeration(u32),
    Variable(u32),
}

/// The names of the one space, in order of declaration.
pub(crate) type Space = IndexMap<Name, NameMeaning>;

/// How many declarations of each kind were met.
#[derive(Clone, Copy, Debug, PartialEq, Eq)]
struct Counts {
    classes: u32,
    enumerations: u32,
    variables: u32,
}

/// Whether a name is declared.
#[tactic(auto, using(crate::proofs::NameLaws::lookups))]
fn is_declared(names: &Space, name: &Name) -> bool
    ensures { result ≡ list_any (same_name name.now) (keys_of names.now.entries) }
{
    names.contains_key(name)
}

/// Adds a name that isn't declared.
#[tactic(auto, using(crate::proofs::NameLaws::insert_absent))]
fn add(names: &mut Space, name: Name, meaning: NameMeaning) -> Result<(), TableFault>
    requires new { list_any (same_name name) (keys_of names.old.entries) ≡ false }
    ensures added { OnOk result (names.new.entries ≡ names.old.entries ++ (name, meaning) ∷ []) }
    ensures fault { IfErr result (λ fault. fault ≡ TableFault.Memory) }
{
    names.insert(name, meaning)?;
    Ok(())
}

/// Declares a name.
fn declare(
    alloc: Global,
    names: &mut Space,
    ident: &Ident,
    meaning: NameMeaning,
) -> Result<(), TableFault>
    ensures new { OnOk result (list_any (same_name ident.now.name) (keys_of names.old.entries)
        ≡ false) }
    ensures added { OnOk result (names.new.entries ≡ names.old.entries ++ (ident.now.name, meaning)
        ∷ []) }
    ensures again { IfErr result (λ fault. OnFault fault (λ f. list_any (same_name ident.now.name)
        (keys_of names.old.entries) ≡ true)) }
    ensures fault { IfErr result (λ fault. OnFault fault (λ f. f ≡ Duplicate ident.now.at)) }
{
    if is_declared(names, &ident.name) {
        return Err(TableFault::Duplicate(ident.at));
    }
    add(names, Name::of(alloc, ident.name.as_bytes())?, meaning)
}

/// Declares the name of an item, where it has one.
fn declare_item(
    alloc: Global,
    names: &mut Space,
    counts: &mut Counts,
    item: &Item,
) -> Result<(), TableFault>
    requires classes { counts.old.classes < 2 ^ 32 - 1 }
    requires enumerations { counts.old.enumerations < 2 ^ 32 - 1 }
    requires variables { counts.old.variables < 2 ^ 32 - 1 }
    ensures entries { OnOk result ((rest : List AnItem) → names.new.entries
        ++ space_from rest counts.new.classes counts.new.enumerations counts.new.variables
        ≡ names.old.entries ++ space_from (item.now ∷ rest) counts.old.classes
        counts.old.enumerations counts.old.variables) }
    ensures new { OnOk result ((rest : List AnItem) → repeated (declared rest)
        (keys_of names.new.entries) ≡ repeated (declared (item.now ∷ rest))
        (keys_of names.old.entries)) }
    ensures classes { OnOk result (counts.new.classes ≤ counts.old.classes + 1) }
    ensures enumerations { OnOk result (counts.new.enumerations ≤ counts.old.enumerations + 1) }
    ensures variables { OnOk result (counts.new.variables ≤ counts.old.variables + 1) }
    ensures fault { IfErr result (λ fault. OnFault fault (λ f. (rest : List AnItem)
        → Contains (map Duplicate (repeated (declared (item.now ∷ rest))
        (keys_of names.old.entries))) f)) }
{
    match item {
        Item::Class(decl) => {
            declare(alloc, names, &decl.name, NameMeaning::Class(counts.classes))?;
            counts.classes += 1;
        }
        Item::Enum(decl) => {
            declare(
                alloc,
                names,
                &decl.name,
                NameMeaning::Enumeration(counts.enumerations),
            )?;
            counts.enumerations += 1;
        }
        Item::Var(decl) => {
            declare(
                alloc,
                names,
                &decl.name,
                NameMeaning::Variable(counts.variables),
            )?;
            counts.variables += 1;
        }
        Item::Where(_) | Item::Goal(_) => {}
    }
    Ok(())
}

/// The names of a model.
pub(crate) fn names_of(alloc: Global, items: &[Item]) -> Result<Space, TableFault>
    requires few { length items.now < 2 ^ 32 - 1 }
    ensures names { IfOk result (λ names. names.entries ≡ space items.now) }
    ensures new { OnOk result (repeated (declared items.now) [] ≡ []) }
    ensures fault { IfErr result (λ fault. OnFault fault
        (λ f. Contains (map Duplicate (repeated (declared items.now) [])) f)) }
{
    let mut names = Space::new(alloc);
    let mut counts = Counts {
        classes: 0,
        enumerations: 0,
        variables: 0,
    };
    for item in items {
        if let Err(fault) = declare_item(alloc, &mut names, &mut counts, item) {
            return Err(fault);
        }
    }
    Ok(names)
}
