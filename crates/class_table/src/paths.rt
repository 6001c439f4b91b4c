//! Paths down the classes, along which attributes are found by name or by number.
//!
//! `paths_of` is the entry. Each class is on one path, which goes on from a class to the one of its
//! children from which most classes derive. So few paths lead from a class up to one without a
//! parent, however long the chain is, and one look-up a path is enough. Which child that is, no
//! answer rests on.
ghost use Rattle.std.specs.Prelude.{◌≡◌, ◌++◌, ◌+◌, ◌-◌, ◌<◌, ◌≤◌, ◌^◌, [], true, None, Some, length, map, position, slice_index, slice_index_or, ℕ, IfOk, IfSome, IfNone, OnOk};
ghost use Rattle.class_table.specs.declared.paths.Path.{Path as APath};
ghost use Rattle.graph_walk.specs.Cycles.{rank};
ghost use Rattle.class_table.specs.Outline.{own_in, parent_in, attributes, variable_name};
ghost use Rattle.class_table.specs.Paths.{ArePaths, HavePaths, IsEnd, IsOn, names_in, path_of, variable_at};
ghost use Rattle.class_table.specs.Same.{same_name};
ghost use Rattle.class_table.specs.Tables.{IsTable, all_differ};

use crate::parents::{ClassList, parent_of};
use crate::{Class, Values, Variable};
use conf_syntax::Name;
use graph_walk::{Descent, State, descents_of, in_order};
use std::alloc::{AllocError, Global};

/// Where an attribute is declared: a class, and its number among the class's own attributes.
#[derive(Clone, Copy, Debug)]
pub(crate) struct Spot {
    pub class: u32,
    pub own: usize,
}

/// A path down the classes, with the attributes that they declare, in order.
#[derive(Drop)]
pub(crate) struct Path {
    /// The parent of its first class.
    pub above: Option<u32>,
    /// How many attributes its first class inherits.
    pub from: usize,
    /// The names of the attributes, to be found by hash.
    pub names: Values,
    pub spots: Vec<Spot>,
}

/// The paths of a table, and for each class the number of the one that it is on.
#[derive(Drop)]
pub(crate) struct Paths {
    pub all: Vec<Path>,
    pub on: Vec<Option<usize>>,
}

/// The attributes that a class itself declares.
#[tactic(auto, using(crate::proofs::TableLaws::own_of_class))]
pub(crate) fn own_of(classes: &[Class], c: u32) -> &[Variable]
    requires class { c < length classes.now }
    ensures own { result.now ≡ own_in classes.now c }
{
    classes[c as usize].own.items()
}

/// Adds the names of some variables.
fn add_names(alloc: Global, variables: &[Variable], names: &mut Values) -> Result<(), AllocError>
    requires differ { all_differ (map variable_name variables.now) names.old ≡ true }
    ensures names { OnOk result (names.new ≡ names.old ++ map variable_name variables.now) }
{
    for variable in variables {
        names.insert(Name::of(alloc, variable.name.as_bytes())?)?;
    }
    Ok(())
}

/// Adds the spots of a class's own attributes.
fn add_spots(classes: &[Class], class: u32, spots: &mut Vec<Spot>) -> Result<(), AllocError>
    requires class { class < length classes.now }
    ensures spots { OnOk result (map (variable_at classes.now) spots.new.items
        ≡ map (variable_at classes.now) spots.old.items ++ map Some (own_in classes.now class)) }
{
    for own in 0..own_of(classes, class).len() {
        spots.push(Spot { class, own })?;
    }
    Ok(())
}

/// Adds a class at the end of a path.
fn append(alloc: Global, classes: &[Class], path: &mut Path, class: u32) -> Result<(), AllocError>
    requires class { class < length classes.now }
    requires differ { all_differ (names_in (own_in classes.now class)) path.old.names ≡ true }
    ensures above { OnOk result (path.new.above ≡ path.old.above) }
    ensures from { OnOk result (path.new.from ≡ path.old.from) }
    ensures names { OnOk result (path.new.names ≡ path.old.names
        ++ names_in (own_in classes.now class)) }
    ensures spots { OnOk result (map (variable_at classes.now) path.new.spots.items
        ≡ map (variable_at classes.now) path.old.spots.items
        ++ map Some (own_in classes.now class)) }
{
    add_names(alloc, own_of(classes, class), &mut path.names)?;
    add_spots(classes, class, &mut path.spots)
}

/// What paths are made from: the classes, how many attributes each has, an order of them, and which
/// child is the heir of each.
#[derive(Drop)]
struct Tree<'a> {
    classes: &'a [Class],
    counts: &'a [u32],
    order: &'a [State],
    descents: &'a [Descent],
}

/// The number of a class's path, where it has one.
#[tactic(auto, using(crate::proofs::PathLaws::path_read))]
fn number_at(paths: &Paths, class: u32) -> Option<usize>
    requires class { class < length paths.now.on.items }
    ensures number { result ≡ path_of paths.now.on.items class }
{
    paths.on[class as usize]
}

/// The path of a class's parent, where it ends there and the class is the heir.
fn parent_path(tree: &Tree<'_>, paths: &Paths, class: u32) -> Option<usize>
    requires table { IsTable tree.now.classes.now tree.now.counts.now tree.now.order.now }
    requires descents { length tree.now.descents.now ≡ length tree.now.classes.now }
    requires paths { ArePaths tree.now.classes.now tree.now.order.now paths.now.all.items
        paths.now.on.items }
    requires class { class < length tree.now.classes.now }
    ensures there { IfSome result (λ q. q < length paths.now.all.items) }
    ensures end { IfSome result (λ q. (d : APath) → IsEnd tree.now.classes.now tree.now.order.now
        (slice_index_or paths.now.all.items q d) class) }
{
    let parent = parent_of(tree.classes, class as usize)?;
    if tree.descents[parent as usize].heir != class {
        return None;
    }
    let number = number_at(paths, parent)?;
    let path = &paths.all[number];
    let count = tree.counts[parent as usize] as usize - path.from;
    if path.names.len() == count && path.spots.len() == count {
        return Some(number);
    }
    None
}

/// A path whose attributes are those that a class inherits, by its number: that of its parent, or a
/// new one.
fn path_to(
    alloc: Global,
    tree: &Tree<'_>,
    paths: &mut Paths,
    class: u32,
) -> Result<usize, AllocError>
    requires table { IsTable tree.now.classes.now tree.now.counts.now tree.now.order.now }
    requires descents { length tree.now.descents.now ≡ length tree.now.classes.now }
    requires paths { ArePaths tree.now.classes.now tree.now.order.now paths.old.all.items
        paths.old.on.items }
    requires class { class < length tree.now.classes.now }
    ensures paths { OnOk result (ArePaths tree.now.classes.now tree.now.order.now
        paths.new.all.items paths.new.on.items) }
    ensures on { OnOk result (paths.new.on.items ≡ paths.old.on.items) }
    ensures there { IfOk result (λ q. q < length paths.new.all.items) }
    ensures end { IfOk result (λ q. (d : APath) → IsEnd tree.now.classes.now tree.now.order.now
        (slice_index_or paths.new.all.items q d) class) }
{
    if let Some(number) = parent_path(tree, paths, class) {
        return Ok(number);
    }
    let count = tree.counts[class as usize] as usize;
    let path = Path {
        above: parent_of(tree.classes, class as usize),
        from: count - own_of(tree.classes, class).len(),
        names: Values::new(alloc),
        spots: Vec::new(alloc),
    };
    let number = paths.all.len();
    paths.all.push(path)?;
    Ok(number)
}

/// Puts a class that has no path on one.
fn settle(alloc: Global, tree: &Tree<'_>, paths: &mut Paths, class: u32) -> Result<(), AllocError>
    requires table { IsTable tree.now.classes.now tree.now.counts.now tree.now.order.now }
    requires descents { length tree.now.descents.now ≡ length tree.now.classes.now }
    requires paths { ArePaths tree.now.classes.now tree.now.order.now paths.old.all.items
        paths.old.on.items }
    requires class { class < length tree.now.classes.now }
    ensures paths { OnOk result (ArePaths tree.now.classes.now tree.now.order.now
        paths.new.all.items paths.new.on.items) }
    ensures settled { OnOk result (path_of paths.new.on.items class ≡ None → ⊥) }
    ensures stays { OnOk result ((c : ℕ) → path_of paths.new.on.items c ≡ None
        → path_of paths.old.on.items c ≡ None) }
{
    if number_at(paths, class).is_some() {
        return Ok(());
    }
    let number = path_to(alloc, tree, paths, class)?;
    append(alloc, tree.classes, &mut paths.all[number], class)?;
    paths.on[class as usize] = Some(number);
    Ok(())
}

/// Puts classes on paths, in the order in which they are given.
fn settle_listed(
    alloc: Global,
    tree: &Tree<'_>,
    listed: &[u32],
    paths: &mut Paths,
) -> Result<(), AllocError>
    requires table { IsTable tree.now.classes.now tree.now.counts.now tree.now.order.now }
    requires descents { length tree.now.descents.now ≡ length tree.now.classes.now }
    requires paths { ArePaths tree.now.classes.now tree.now.order.now paths.old.all.items
        paths.old.on.items }
    ensures paths { OnOk result (ArePaths tree.now.classes.now tree.now.order.now
        paths.new.all.items paths.new.on.items) }
{
    for class in listed {
        if (*class as usize) < tree.classes.len() {
            settle(alloc, tree, paths, *class)?;
        }
    }
    Ok(())
}

/// No path for each of so many classes.
fn no_paths(alloc: Global, count: usize) -> Result<Paths, AllocError>
    ensures none { IfOk result (λ paths. paths.all.items ≡ []) }
    ensures size { IfOk result (λ paths. length paths.on.items ≡ count) }
    ensures on { IfOk result (λ paths. (c : ℕ) → path_of paths.on.items c ≡ None) }
{
    let mut on = Vec::new(alloc);
    for _class in 0..count {
        on.push(None)?;
    }
    Ok(Paths {
        all: Vec::new(alloc),
        on,
    })
}

/// The paths of these classes.
pub(crate) fn paths_of(
    alloc: Global,
    classes: &[Class],
    counts: &[u32],
    order: &[State],
) -> Result<Paths, AllocError>
    requires table { IsTable classes.now counts.now order.now }
    requires few { length classes.now < 2 ^ 32 }
    ensures paths { IfOk result (λ paths. ArePaths classes.now order.now paths.all.items
        paths.on.items) }
    ensures all { IfOk result (λ paths. HavePaths classes.now paths.on.items) }
{
    let listed = in_order(alloc, classes.len() as u32, order)?;
    let descents = descents_of(alloc, &ClassList { classes }, &listed)?;
    let tree = Tree {
        classes,
        counts,
        order,
        descents: &descents,
    };
    let mut paths = no_paths(alloc, classes.len())?;
    settle_listed(alloc, &tree, &listed, &mut paths)?;
    for class in 0..classes.len() {
        settle(alloc, &tree, &mut paths, class as u32)?;
    }
    Ok(paths)
}

/// The path that a class is on.
pub(crate) fn path_at<'a>(classes: &[Class], order: &[State], paths: &'a Paths, c: u32) -> &'a Path
    requires paths { ArePaths classes.now order.now paths.now.all.items paths.now.on.items }
    requires all { HavePaths classes.now paths.now.on.items }
    requires class { c < length classes.now }
    ensures on { IsOn classes.now order.now result.now c }
{
    match number_at(paths, c) {
        Some(number) => {
            let path = &paths.all[number];
            path
        }
        None => unreachable!(),
    }
}

/// The number of the attribute of this name, of those of a path that a class on it with so many
/// attributes has.
pub(crate) fn number_on(path: &Path, count: u32, name: &[u8]) -> Option<u32>
    requires count { path.now.from ≤ count }
    ensures found { IfSome result (λ k. (i : ℕ) × (k ≡ path.now.from + i) × (k < count)
        × (position (same_name name.now) path.now.names ≡ Some i)) }
    ensures none { IfNone result ((i : ℕ) → position (same_name name.now) path.now.names ≡ Some i
        → count ≤ path.now.from + i) }
{
    let number = path.names.number(name)?;
    if number < count as usize - path.from {
        return Some((path.from + number) as u32);
    }
    None
}

/// The attribute that stands at a spot.
pub(crate) fn variable_at<'a>(classes: &'a [Class], spot: Spot) -> &'a Variable
    requires there { variable_at classes.now spot ≡ None → ⊥ }
    ensures variable { variable_at classes.now spot ≡ Some result.now }
{
    &own_of(classes, spot.class)[spot.own]
}
