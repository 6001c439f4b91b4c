//! What the walk of a model's containment lists: objects, leaves and cells.
ghost use Rattle.std.specs.Prelude.{◌≡◌};

use class_table::Resolved;
use std::marker::Model;

/// An object: its class, how many names its path has, and where it is held. Objects are numbered
/// from 0.
#[derive(Clone, Copy, Debug, PartialEq, Eq)]
pub struct Object {
    pub class: u32,
    pub depth: u32,
    /// The object that holds it; None at the top level.
    pub owner: Option<u32>,
    /// The attribute of its owner, or the variable of the top level, by its number.
    pub attribute: u32,
    /// Its number in that attribute's array, or 0.
    pub element: u32,
}

/// An attribute of an object, or a variable of the top level, that holds no objects.
#[derive(Clone, Copy, Debug, PartialEq, Eq)]
pub struct Leaf {
    pub owner: Option<u32>,
    pub attribute: u32,
    pub shape: Resolved,
}

/// Where the walk stands: in an object, by its number and the depth of its path, or at the top
/// level, whose depth is 0.
#[derive(Clone, Copy, Debug)]
pub(crate) struct Inside {
    pub owner: Option<u32>,
    pub depth: u32,
}

/// The values of a cell.
#[derive(Clone, Copy, Debug, PartialEq, Eq)]
pub enum Domain {
    /// The integers from the least to the greatest.
    Span(i64, i64),
    /// The numbers of the objects of this class's extent.
    Extent(u32),
}

/// A cell: one value that a configuration gives.
#[derive(Clone, Copy, Debug, PartialEq, Eq)]
pub struct Cell {
    pub owner: Option<u32>,
    pub attribute: u32,
    /// For a cell of a reference set the object that is in or out.
    pub element: Option<u32>,
    pub domain: Domain,
}

/// Objects, by their numbers.
#[derive(Debug)]
pub struct ObjectList {
    items: Vec<u32>,
}

impl Drop for ObjectList {
    fn drop(self) {
        let ObjectList { items: _ } = self;
    }
}

impl Model for ObjectList {
    ghost use Rattle.std.specs.Prelude.{List, ℕ};

    ghost Value = { List ℕ };

    ghost view = { λ list. list.items.items };
}

impl ObjectList {
    /// The list of these numbers.
    pub fn of(items: Vec<u32>) -> Self
        ensures items { result ≡ items.items }
    {
        ObjectList { items }
    }

    /// The numbers, in order.
    pub fn items(&self) -> &[u32]
        ensures items { result.now ≡ self.now }
    {
        &self.items
    }
}

/// A configuration: one value for each cell, in order.
#[derive(Debug)]
pub struct Config {
    values: Vec<i64>,
}

impl Drop for Config {
    fn drop(self) {
        let Config { values: _ } = self;
    }
}

impl Model for Config {
    ghost use Rattle.std.specs.Prelude.{List, ℤ};

    ghost Value = { List ℤ };

    ghost view = { λ config. config.values.items };
}

impl Config {
    /// The configuration of these values.
    pub fn of(values: Vec<i64>) -> Self
        ensures values { result ≡ values.items }
    {
        Config { values }
    }

    /// The values, in order.
    pub fn items(&self) -> &[i64]
        ensures values { result.now ≡ self.now }
    {
        &self.values
    }
}

/// For each cell, in order, the value that it had before, if it had one.
#[derive(Debug)]
pub struct Hints {
    values: Vec<Option<i64>>,
}

impl Drop for Hints {
    fn drop(self) {
        let Hints { values: _ } = self;
    }
}

impl Model for Hints {
    ghost use Rattle.std.specs.Prelude.{List, Option, ℤ};

    ghost Value = { List (Option ℤ) };

    ghost view = { λ hints. hints.values.items };
}

impl Hints {
    /// The hints with these values.
    pub fn of(values: Vec<Option<i64>>) -> Self
        ensures values { result ≡ values.items }
    {
        Hints { values }
    }

    /// The values, in order.
    pub fn items(&self) -> &[Option<i64>]
        ensures values { result.now ≡ self.now }
    {
        &self.values
    }
}
