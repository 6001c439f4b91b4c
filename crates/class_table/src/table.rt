//! What the table holds: classes, enumerations and variables, with shapes in which each name is
//! resolved to a number.
ghost use Rattle.std.specs.Prelude.{◌≡◌, ◌++◌, ◌∷◌, [], if◌then◌else◌, not, length, slice_get, take, position, option_copied, IfOk, OnErr};
ghost use Rattle.std.specs.List.{list_any};
ghost use Rattle.class_table.specs.Same.{same_name};

use crate::name_text::NameText;
use conf_syntax::Name;
use indexmap::IndexSet;
use std::alloc::{AllocError, Global};
use std::marker::Model;

/// What a variable may hold. Classes and enumerations are numbered from 0 in order of declaration.
#[derive(Clone, Copy, Debug, PartialEq, Eq)]
pub enum Resolved {
    /// An integer from the least to the greatest value.
    Span(i64, i64),
    /// A truth value.
    Truth,
    /// A value of this enumeration.
    Choice(u32),
    /// One contained object of this class.
    One(u32),
    /// Contained objects of this class, so many.
    Many(u32, u32),
    /// A reference to an object of this class.
    Ref(u32),
    /// A set of references to objects of this class, so many.
    RefSet(u32, u32),
}

/// A variable of a class or of the top level.
#[derive(Debug, Drop)]
pub struct Variable {
    pub name: Name,
    pub shape: Resolved,
}

/// Variables, in order of declaration.
#[derive(Debug, Drop)]
pub struct Variables {
    items: Vec<Variable>,
}

impl Model for Variables {
    ghost use Rattle.std.specs.Prelude.{List};
    ghost use Rattle.class_table.specs.declared.table.Variable.{Variable};

    ghost Value = { List Variable };

    ghost view = { λ list. list.items.items };
}

impl Variables {
    /// The list of these items.
    pub fn of(items: Vec<Variable>) -> Self
        ensures items { result ≡ items.items }
    {
        Variables { items }
    }

    /// The items, in order.
    pub fn items(&self) -> &[Variable]
        ensures items { result.now ≡ self.now }
    {
        &self.items
    }
}

/// The values of an enumeration, in order of declaration. They are found by their names.
#[derive(Drop)]
pub struct Values {
    names: IndexSet<Name>,
}

impl Model for Values {
    ghost use Rattle.std.specs.Prelude.{List, ℕ};

    ghost Value = { List (List ℕ) };

    ghost view = { λ values. values.names.keys };
}

impl Values {
    /// No values.
    pub fn new(alloc: Global) -> Self
        ensures values { result ≡ [] }
    {
        Values {
            names: IndexSet::new(alloc),
        }
    }

    /// Adds a value, where its name is new.
    pub fn insert(&mut self, name: Name) -> Result<bool, AllocError>
        ensures values { IfOk result (λ new. self.new
            ≡ (if list_any (same_name name) self.old then self.old else self.old ++ name ∷ [])) }
        ensures new { IfOk result (λ new. new ≡ not (list_any (same_name name) self.old)) }
        ensures refused { OnErr result (self.new ≡ self.old) }
    {
        Ok(self.names.insert(name)?)
    }

    /// Keeps the first values, so many.
    pub fn truncate(&mut self, count: usize)
        ensures values { self.new ≡ take count self.old }
    {
        self.names.truncate(count);
    }

    /// How many values there are.
    pub fn len(&self) -> usize
        ensures length { result ≡ length self.now }
    {
        self.names.len()
    }

    /// The value of this number.
    pub fn get(&self, number: usize) -> Option<&Name>
        ensures value { option_copied result ≡ slice_get self.now number }
    {
        self.names.get_index(number)
    }

    /// The number of the value with this name.
    pub fn number(&self, name: &[u8]) -> Option<usize>
        ensures number { result ≡ position (same_name name.now) self.now }
    {
        self.names.get_index_of(NameText { bytes: name })
    }
}

/// A class: its name, the number of its parent, and its own attributes.
#[derive(Debug, Drop)]
pub struct Class {
    pub name: Name,
    pub parent: Option<u32>,
    pub own: Variables,
}

/// An enumeration: its name and its values.
#[derive(Drop)]
pub struct Enumeration {
    pub name: Name,
    pub values: Values,
}
