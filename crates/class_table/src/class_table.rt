//! The table of a model's classes, enumerations and top-level variables.
//!
//! `ClassTable::build` makes it. All other methods read it: none takes memory, and none searches a
//! list by a name.
ghost use Rattle.std.specs.Prelude.{◌≡◌, ◌<◌, ◌≤◌, ◌^◌, ℕ, List, [], None, Some, All, length, map, slice_get, slice_index_or, position, option_copied, IfSome, IfOk, IfErr, OnOk};
ghost use Rattle.model_limits.specs.Limits.{model_bytes};
ghost use Rattle.class_table.specs.declared.table.Variable.{Variable as AVariable};
ghost use Rattle.class_table.specs.declared.table.Class.{Class as AClass};
ghost use Rattle.class_table.specs.declared.table.Enumeration.{Enumeration as AnEnumeration};
ghost use Rattle.class_table.specs.Ancestry.{derives};
ghost use Rattle.std.specs.List.{flat_map};
ghost use Rattle.conf_syntax.specs.Trees.{program_tokens, item_tokens};
ghost use Rattle.conf_syntax.specs.Words.{AreWords};
ghost use Rattle.class_table.specs.declared.fault.TableFault.{TableFault as AFault};
ghost use Rattle.class_table.specs.Faults.{OnFault, Stands, IsSmall, pointed, repeated};
ghost use Rattle.class_table.specs.Names.{means, space, classes, declared};
ghost use Rattle.class_table.specs.Outline.{outline, parent_in, own_in, is_a, attributes, class_meant, variable_name};
ghost use Rattle.class_table.specs.Paths.{ArePaths, HavePaths};
ghost use Rattle.class_table.specs.Same.{same_name};
ghost use Rattle.class_table.specs.Sound.{IsSound};
ghost use Rattle.class_table.specs.Tables.{enumeration_meant, root_meant, IsFew, IsTable, IsMeant, IsShapeOf};

use crate::build::check_classes;
use crate::name_text::NameText;
use crate::names::{NameMeaning, Space, names_of};
use crate::parents::{ClassList, parent_of};
use crate::parts::{class_decls, resolve_items};
use crate::paths::{Paths, number_on, path_at, paths_of, variable_at};
use crate::{Class, Enumeration, Resolved, TableFault, Values, Variable};
use conf_syntax::{ClassDecl, Item, Name, Program};
use graph_walk::{State, derives};
use std::alloc::Global;
use std::marker::Model;

/// The table of a model in which the declarations have no fault. It is seen as the model's outline.
pub struct ClassTable {
    names: Space,
    classes: Vec<Class>,
    enumerations: Vec<Enumeration>,
    roots: Vec<Variable>,
    /// Paths down the classes, along which attributes are found.
    paths: Paths,
    /// How many attributes each class has.
    counts: Vec<u32>,
    /// An order of the classes in which each stands behind its parent.
    order: Vec<State>,
}

impl Drop for ClassTable {
    fn drop(self) {
        let ClassTable {
            names: _,
            classes: _,
            enumerations: _,
            roots: _,
            paths: _,
            counts: _,
            order: _,
        } = self;
    }
}

impl Model for ClassTable {
    ghost use Rattle.std.specs.Prelude.{All, length, map, ◌≡◌, ◌<◌, ◌^◌};
    ghost use Rattle.class_table.specs.Named.{IsNamed};
    ghost use Rattle.class_table.specs.Outline.{Outline};
    ghost use Rattle.class_table.specs.Scopes.{HasParents};
    ghost use Rattle.class_table.specs.Sound.{HasNesting};
    ghost use Rattle.class_table.specs.Paths.{ArePaths, HavePaths};
    ghost use Rattle.class_table.specs.Tables.{IsTable, IsFew, IsClosed};

    ghost Value = { Outline };

    ghost view = { λ t. record { names = t.names.entries; classes = t.classes.items; enumerations = t.enumerations.items; roots = t.roots.items } };

    ghost invariant = { λ t. record {
      table : IsTable t.classes.items t.counts.items t.order.items;
      classes : length t.classes.items < 2 ^ 32;
      roots : length t.roots.items < 2 ^ 32;
      values : All IsFew t.enumerations.items;
      paths : ArePaths t.classes.items t.order.items t.paths.all.items t.paths.on.items;
      all : HavePaths t.classes.items t.paths.on.items;
      nesting : HasNesting t.classes.items;
      closed : IsClosed (record {
        names = t.names.entries;
        classes = t.classes.items;
        enumerations = t.enumerations.items;
        roots = t.roots.items;
      });
      named : IsNamed (record {
        names = t.names.entries;
        classes = t.classes.items;
        enumerations = t.enumerations.items;
        roots = t.roots.items;
      });
    } };
}

/// An attribute of a class, or a variable of the top level.
#[derive(Clone, Copy, Debug)]
pub struct Attribute<'a> {
    pub name: &'a Name,
    pub shape: Resolved,
}

impl ClassTable {
    /// The table of a model, whose words are words, as those of every text are.
    ///
    /// # Errors
    ///
    /// A fault that stands in the declarations, at its place; `Memory` where there is none left. No
    /// fault is passed over: where one stands, there is no table.
    pub fn build(alloc: Global, program: &Program) -> Result<Self, TableFault>
        requires tokens { length (program_tokens program.now) ≤ model_bytes }
        requires words { AreWords (program_tokens program.now) }
        ensures table { IfOk result (λ table. table ≡ outline program.now.items) }
        ensures right { OnOk result ((fault : AFault) → Stands program.now.items fault → ⊥) }
        ensures fault { IfErr result (λ fault. OnFault fault (Stands program.now.items)) }
    {
        let items = program.items.items();
        ClassTable::of_items(alloc, items)
    }

    /// The table of the items of a model.
    fn of_items(alloc: Global, items: &[Item]) -> Result<Self, TableFault>
        requires small { IsSmall items.now }
        requires words { AreWords (flat_map item_tokens items.now) }
        ensures table { IfOk result (λ table. table ≡ outline items.now) }
        ensures right { OnOk result ((fault : AFault) → Stands items.now fault → ⊥) }
        ensures fault { IfErr result (λ fault. OnFault fault (Stands items.now)) }
    {
        let names = match names_of(alloc, items) {
            Ok(names) => names,
            Err(fault) => return Err(fault),
        };
        let decls = class_decls(alloc, items)?;
        ClassTable::of_names(alloc, items, names, &decls)
    }

    /// The table of the items of a model with these names and classes.
    fn of_names(
        alloc: Global,
        items: &[Item],
        names: Space,
        decls: &[&ClassDecl],
    ) -> Result<Self, TableFault>
        requires names { names.entries ≡ space items.now }
        requires decls { pointed decls.now ≡ classes items.now }
        requires new { repeated (declared items.now) [] ≡ [] }
        requires small { IsSmall items.now }
        requires words { AreWords (flat_map item_tokens items.now) }
        ensures table { IfOk result (λ table. table ≡ outline items.now) }
        ensures right { OnOk result ((fault : AFault) → Stands items.now fault → ⊥) }
        ensures fault { IfErr result (λ fault. OnFault fault (Stands items.now)) }
    {
        let parts = match resolve_items(alloc, &names, decls, items) {
            Ok(parts) => parts,
            Err(fault) => return Err(fault),
        };
        let family = match check_classes(alloc, items, &names, decls, &parts.classes) {
            Ok(family) => family,
            Err(fault) => return Err(fault),
        };
        let paths = paths_of(alloc, &parts.classes, &family.counts, &family.order)?;
        Ok(ClassTable {
            names,
            paths,
            classes: parts.classes,
            enumerations: parts.enumerations,
            roots: parts.roots,
            counts: family.counts,
            order: family.order,
        })
    }

    /// What this name means: a class, an enumeration or a top-level variable.
    pub fn meaning(&self, name: &Name) -> Option<NameMeaning>
        ensures meaning { result ≡ means self.now.names name.now }
        ensures exists { IsMeant (length self.now.classes) (length self.now.enumerations)
            (length self.now.roots) result }
    {
        self.names.get(name).copied()
    }

    /// The class of this name.
    pub fn class_of(&self, name: &Name) -> Option<u32>
        ensures class { result ≡ class_meant (means self.now.names name.now) }
        ensures exists { IfSome result (λ c. c < length self.now.classes) }
    {
        match self.names.get(name).copied() {
            Some(NameMeaning::Class(class)) => Some(class),
            _ => None,
        }
    }

    /// The enumeration of this name.
    pub fn enumeration_of(&self, name: &Name) -> Option<u32>
        ensures enumeration { result ≡ enumeration_meant (means self.now.names name.now) }
        ensures exists { IfSome result (λ e. e < length self.now.enumerations) }
    {
        match self.names.get(name).copied() {
            Some(NameMeaning::Enumeration(enumeration)) => Some(enumeration),
            _ => None,
        }
    }

    /// The top-level variable of this name.
    pub fn root_of(&self, name: &Name) -> Option<u32>
        ensures root { result ≡ root_meant (means self.now.names name.now) }
        ensures exists { IfSome result (λ k. k < length self.now.roots) }
    {
        self.root_spelled(name.as_bytes())
    }

    /// The top-level variable whose name has these bytes.
    pub fn root_spelled(&self, name: &[u8]) -> Option<u32>
        ensures root { result ≡ root_meant (means self.now.names name.now) }
        ensures exists { IfSome result (λ k. k < length self.now.roots) }
    {
        match self.names.get(NameText { bytes: name }).copied() {
            Some(NameMeaning::Variable(root)) => Some(root),
            _ => None,
        }
    }

    /// Whether class `d` is class `c` or an ancestor of it. The cost is the number of parents
    /// between them.
    pub fn is_a(&self, c: u32, d: u32) -> bool
        requires class { c < length self.now.classes }
        ensures is_a { result ≡ is_a self.now.classes c d }
    {
        let list = ClassList {
            classes: &self.classes,
        };
        derives(&list, c, d)
    }

    /// The parent of a class.
    pub fn parent(&self, c: u32) -> Option<u32>
        requires class { c < length self.now.classes }
        ensures parent { result ≡ parent_in self.now.classes c }
    {
        parent_of(&self.classes, c as usize)
    }

    /// How many attributes a class has, inherited ones too.
    pub fn attribute_count(&self, c: u32) -> u32
        requires class { c < length self.now.classes }
        ensures count { result ≡ length (attributes self.now.classes c) }
    {
        self.counts[c as usize]
    }

    /// How many top-level variables there are.
    pub fn root_count(&self) -> u32
        ensures count { result ≡ length self.now.roots }
    {
        self.roots.len() as u32
    }

    /// A top-level variable, by its number.
    pub fn root(&self, k: u32) -> Attribute<'_>
        requires root { k < length self.now.roots }
        ensures name { (d : AVariable) → result.name.now
            ≡ (slice_index_or self.now.roots k d).name }
        ensures shape { (d : AVariable) → result.shape ≡ (slice_index_or self.now.roots k d).shape }
        ensures exists { IsShapeOf (length self.now.classes) (length self.now.enumerations)
            result.shape }
    {
        let root = &self.roots[k as usize];
        Attribute {
            name: &root.name,
            shape: root.shape,
        }
    }

    /// How many classes there are. It also hands on what holds of every table: each class that is
    /// named is there, no class derives from itself, no object contains one of its own class, and
    /// paths can be read back from the names.
    pub fn class_count(&self) -> u32
        ensures count { result ≡ length self.now.classes }
        ensures sound { IsSound self.now }
        ensures values { All IsFew self.now.enumerations }
    {
        self.classes.len() as u32
    }

    /// The name of a class.
    pub fn class_name(&self, c: u32) -> &Name
        requires class { c < length self.now.classes }
        ensures name { (d : AClass) → result.now ≡ (slice_index_or self.now.classes c d).name }
    {
        &self.classes[c as usize].name
    }

    /// An attribute of a class, by its number: the parent's attributes come first. The cost is
    /// logarithmic in the number of classes.
    pub fn attribute(&self, c: u32, k: u32) -> Attribute<'_>
        requires class { c < length self.now.classes }
        requires attribute { k < length (attributes self.now.classes c) }
        ensures name { (d : AVariable) → result.name.now
            ≡ (slice_index_or (attributes self.now.classes c) k d).name }
        ensures shape { (d : AVariable) → result.shape
            ≡ (slice_index_or (attributes self.now.classes c) k d).shape }
        ensures exists { IsShapeOf (length self.now.classes) (length self.now.enumerations)
            result.shape }
    {
        let attribute = attribute_at(&self.classes, &self.order, &self.paths, c, k);
        Attribute {
            name: &attribute.name,
            shape: attribute.shape,
        }
    }

    /// The number of the attribute of this name, an inherited one too. The cost is as many look-ups
    /// by hash as the logarithm of the number of classes.
    pub fn attribute_named(&self, c: u32, name: &Name) -> Option<u32>
        requires class { c < length self.now.classes }
        ensures number { result ≡ position (same_name name.now)
            (map variable_name (attributes self.now.classes c)) }
        ensures exists { IfSome result (λ k. k < length (attributes self.now.classes c)) }
    {
        self.attribute_spelled(c, name.as_bytes())
    }

    /// The number of the attribute whose name has these bytes, as `attribute_named` finds it.
    pub fn attribute_spelled(&self, c: u32, name: &[u8]) -> Option<u32>
        requires class { c < length self.now.classes }
        ensures number { result ≡ position (same_name name.now)
            (map variable_name (attributes self.now.classes c)) }
        ensures exists { IfSome result (λ k. k < length (attributes self.now.classes c)) }
    {
        number_of(
            &self.classes,
            &self.counts,
            &self.order,
            &self.paths,
            c,
            name,
        )
    }

    /// How many values an enumeration has.
    pub fn value_count(&self, e: u32) -> u32
        requires enumeration { e < length self.now.enumerations }
        ensures count { (d : AnEnumeration) → result
            ≡ length (slice_index_or self.now.enumerations e d).values }
    {
        self.enumerations[e as usize].values.len() as u32
    }

    /// The name of a value, by its number in order of declaration.
    pub fn value_name(&self, e: u32, k: u32) -> &Name
        requires enumeration { e < length self.now.enumerations }
        requires value { (d : AnEnumeration)
            → k < length (slice_index_or self.now.enumerations e d).values }
        ensures name { (d : AnEnumeration)
            → slice_get (slice_index_or self.now.enumerations e d).values k ≡ Some result.now }
    {
        match self.enumerations[e as usize].values.get(k as usize) {
            Some(name) => name,
            None => unreachable!(),
        }
    }

    /// The number of the value of this name.
    pub fn value_of(&self, e: u32, name: &Name) -> Option<u32>
        requires enumeration { e < length self.now.enumerations }
        ensures value { (d : AnEnumeration) → result ≡ position (same_name name.now)
            (slice_index_or self.now.enumerations e d).values }
    {
        match self.enumerations[e as usize].values.number(name.as_bytes()) {
            Some(number) => Some(number as u32),
            None => None,
        }
    }
}

/// An attribute of a class, by its number.
fn attribute_at<'a>(
    classes: &'a [Class],
    order: &[State],
    paths: &Paths,
    c: u32,
    k: u32,
) -> &'a Variable
    requires paths { ArePaths classes.now order.now paths.now.all.items paths.now.on.items }
    requires all { HavePaths classes.now paths.now.on.items }
    requires class { c < length classes.now }
    requires attribute { k < length (attributes classes.now c) }
    ensures attribute { (d : AVariable) → result.now ≡ slice_index_or (attributes classes.now c) k
        d }
{
    let mut at = c;
    'up: loop {
        let path = path_at(classes, order, paths, at);
        if k as usize >= path.from {
            return variable_at(classes, path.spots[k as usize - path.from]);
        }
        match path.above {
            Some(parent) => at = parent,
            None => unreachable!(),
        }
    }
}

/// The number of a class's attribute, by its name.
fn number_of(
    classes: &[Class],
    counts: &[u32],
    order: &[State],
    paths: &Paths,
    c: u32,
    name: &[u8],
) -> Option<u32>
    requires table { IsTable classes.now counts.now order.now }
    requires paths { ArePaths classes.now order.now paths.now.all.items paths.now.on.items }
    requires all { HavePaths classes.now paths.now.on.items }
    requires class { c < length classes.now }
    ensures number { result ≡ position (same_name name.now)
        (map variable_name (attributes classes.now c)) }
    ensures exists { IfSome result (λ k. k < length (attributes classes.now c)) }
{
    let mut at = c;
    'up: loop {
        let path = path_at(classes, order, paths, at);
        if let Some(number) = number_on(path, counts[at as usize], name) {
            return Some(number);
        }
        match path.above {
            Some(parent) => at = parent,
            None => return None,
        }
    }
}
