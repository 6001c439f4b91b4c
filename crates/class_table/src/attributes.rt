//! The names of attributes, which must differ in each class from those that it inherits.
//!
//! `count_attributes` is the entry. It walks from each class down to those that derive from it, and
//! holds the names of the attributes of the class where it stands: a class's own names are added on
//! the way down and taken away on the way up.
ghost use Rattle.std.specs.Prelude.{◌≡◌, ℕ, ◌+◌, ◌<◌, ◌≤◌, ◌^◌, ◌++◌, ◌∷◌, [], List, None, length, map, slice_set, slice_index, take, Contains, IfOk, IfErr, OnOk};
ghost use Rattle.std.specs.List.{flat_map};
ghost use Rattle.class_table.specs.declared.fault.TableFault.TheVariants.{Duplicate};
ghost use Rattle.class_table.specs.Names.{own, member_variable};
ghost use Rattle.class_table.specs.Outline.{parent_in};
ghost use Rattle.class_table.specs.Faults.{OnFault, pointed, repeated, variable_ident};
ghost use Rattle.class_table.specs.Scopes.{Falls, HasParents, attributes_at, names_of, own_at, Differ, IsRepeated, IsScope, IsFamily, HasRanks, RootsReached};
ghost use Rattle.graph_walk.specs.Cycles.{NewStays};
ghost use Rattle.graph_walk.specs.Walk.{IsWalk, InRange, state_at, IsNew, measure};

use crate::parents::{ClassList, parent_of};
use crate::{Class, TableFault, Values};
use conf_syntax::{ClassDecl, Member, Name};
use graph_walk::{Edges, State, Step, Walk, children, zeros};
use std::alloc::{AllocError, Global};

/// The names of the attributes of the class where the walk stands, and how many attributes each
/// class has that was met.
#[derive(Drop)]
struct Scope {
    names: Values,
    counts: Vec<u32>,
}

/// What the walk reads: the classes, their declarations, and the edges from parents down.
#[derive(Drop)]
struct Family<'a> {
    classes: &'a [Class],
    decls: &'a [&'a ClassDecl],
    graph: &'a [Edges],
}

/// Adds the name of a member's attribute.
fn add_name(alloc: Global, member: &Member, names: &mut Values) -> Result<(), TableFault>
    ensures names { OnOk result (names.new ≡ names.old ++ names_of (member_variable member.now)) }
    ensures differ { OnOk result (repeated (map variable_ident (member_variable member.now))
        names.old ≡ []) }
    ensures fault { IfErr result (λ fault. OnFault fault (λ f. (at : ℕ) × (f ≡ Duplicate at)
        × (repeated (map variable_ident (member_variable member.now)) names.old ≡ at ∷ []))) }
{
    let Member::Var(decl) = member else {
        return Ok(());
    };
    if !names.insert(Name::of(alloc, decl.name.name.as_bytes())?)? {
        return Err(TableFault::Duplicate(decl.name.at));
    }
    Ok(())
}

/// Adds the names of a class's own attributes.
fn add_names(alloc: Global, members: &[Member], names: &mut Values) -> Result<(), TableFault>
    ensures names { OnOk result (names.new ≡ names.old
        ++ names_of (flat_map member_variable members.now)) }
    ensures differ { OnOk result (repeated
        (map variable_ident (flat_map member_variable members.now)) names.old ≡ []) }
    ensures fault { IfErr result (λ fault. OnFault fault (λ f. (at : ℕ) × (f ≡ Duplicate at)
        × Contains (repeated (map variable_ident (flat_map member_variable members.now)) names.old)
        at)) }
{
    for member in members {
        if let Err(fault) = add_name(alloc, member, names) {
            return Err(fault);
        }
    }
    Ok(())
}

/// Comes to a class: adds the names of its own attributes.
fn enter(
    alloc: Global,
    decls: &[&ClassDecl],
    scope: &mut Scope,
    class: u32,
) -> Result<(), TableFault>
    requires class { class < length decls.now }
    requires counts { length scope.old.counts.items ≡ length decls.now }
    requires room { length scope.old.names + length (own_at (pointed decls.now) class) < 2 ^ 32 }
    ensures names { OnOk result (scope.new.names ≡ scope.old.names
        ++ names_of (own_at (pointed decls.now) class)) }
    ensures differ { OnOk result (repeated (map variable_ident (own_at (pointed decls.now) class))
        scope.old.names ≡ []) }
    ensures counts { OnOk result (scope.new.counts.items ≡ slice_set scope.old.counts.items class
        (length scope.new.names)) }
    ensures fault { IfErr result (λ fault. OnFault fault (λ f. (at : ℕ) × (f ≡ Duplicate at)
        × Contains (repeated (map variable_ident (own_at (pointed decls.now) class))
        scope.old.names) at)) }
{
    if let Err(fault) = add_own(alloc, decls, class, &mut scope.names) {
        return Err(fault);
    }
    scope.counts[class as usize] = scope.names.len() as u32;
    Ok(())
}

/// Adds the names of a class's own attributes, by its number.
#[tactic(auto, using(crate::proofs::ScopeLaws::own_read))]
fn add_own(
    alloc: Global,
    decls: &[&ClassDecl],
    class: u32,
    names: &mut Values,
) -> Result<(), TableFault>
    requires class { class < length decls.now }
    ensures names { OnOk result (names.new ≡ names.old
        ++ names_of (own_at (pointed decls.now) class)) }
    ensures differ { OnOk result (repeated (map variable_ident (own_at (pointed decls.now) class))
        names.old ≡ []) }
    ensures fault { IfErr result (λ fault. OnFault fault (λ f. (at : ℕ) × (f ≡ Duplicate at)
        × Contains (repeated (map variable_ident (own_at (pointed decls.now) class)) names.old)
        at)) }
{
    add_names(alloc, decls[class as usize].members.items(), names)
}

/// How many attributes the class has where the walk stands.
fn count_at(walk: &Walk, scope: &Scope) -> u32
    requires counts { (i : ℕ) → i < length walk.now.path.items → slice_index walk.now.path.items i
        < length scope.now.counts.items }
    ensures none { walk.now.path.items ≡ [] → result ≡ 0 }
    ensures top { (q : List ℕ) (c : ℕ) → walk.now.path.items ≡ q ++ c ∷ [] → result
        ≡ slice_index scope.now.counts.items c }
{
    if walk.path.is_empty() {
        return 0;
    }
    let class = walk.last();
    scope.counts[class as usize]
}

/// Goes one step on, with the names.
fn visit(
    alloc: Global,
    family: &Family<'_>,
    walk: &mut Walk,
    scope: &mut Scope,
) -> Result<(), TableFault>
    requires family { IsFamily family.now.classes.now (pointed family.now.decls.now)
        family.now.graph.now }
    requires walk { IsWalk family.now.graph.now walk.old.states.items walk.old.path.items
        walk.old.done }
    requires scope { IsScope family.now.classes.now (pointed family.now.decls.now)
        walk.old.states.items walk.old.path.items scope.old.names scope.old.counts.items }
    requires path { 0 < length walk.old.path.items }
    ensures walk { OnOk result (IsWalk family.now.graph.now walk.new.states.items
        walk.new.path.items walk.new.done) }
    ensures scope { OnOk result (IsScope family.now.classes.now (pointed family.now.decls.now)
        walk.new.states.items walk.new.path.items scope.new.names scope.new.counts.items) }
    ensures stays { OnOk result (NewStays walk.old.states.items walk.new.states.items) }
    ensures fewer { OnOk result (measure walk.new.states.items < measure walk.old.states.items) }
    ensures fault { IfErr result (λ fault. OnFault fault (IsRepeated family.now.classes.now
        (pointed family.now.decls.now))) }
{
    let step = walk.step(family.graph)?;
    match step {
        Step::Entered(class) => {
            if let Err(fault) = enter(alloc, family.decls, scope, class) {
                return Err(fault);
            }
            Ok(())
        }
        Step::Left(_) => {
            let kept = count_at(walk, scope);
            scope.names.truncate(kept as usize);
            Ok(())
        }
        Step::Passed => Ok(()),
        Step::Closed(_) => unreachable!(),
    }
}

/// Goes to a class without a parent and to all that derive from it.
fn visit_from(
    alloc: Global,
    family: &Family<'_>,
    walk: &mut Walk,
    scope: &mut Scope,
    root: u32,
) -> Result<(), TableFault>
    requires family { IsFamily family.now.classes.now (pointed family.now.decls.now)
        family.now.graph.now }
    requires walk { IsWalk family.now.graph.now walk.old.states.items walk.old.path.items
        walk.old.done }
    requires scope { IsScope family.now.classes.now (pointed family.now.decls.now)
        walk.old.states.items walk.old.path.items scope.old.names scope.old.counts.items }
    requires path { walk.old.path.items ≡ [] }
    requires root { root < length family.now.graph.now }
    requires alone { parent_in family.now.classes.now root ≡ None }
    ensures walk { OnOk result (IsWalk family.now.graph.now walk.new.states.items
        walk.new.path.items walk.new.done) }
    ensures scope { OnOk result (IsScope family.now.classes.now (pointed family.now.decls.now)
        walk.new.states.items walk.new.path.items scope.new.names scope.new.counts.items) }
    ensures stays { OnOk result (NewStays walk.old.states.items walk.new.states.items) }
    ensures path { OnOk result (walk.new.path.items ≡ []) }
    ensures reached { OnOk result (IsNew (state_at walk.new.states.items root) → ⊥) }
    ensures fault { IfErr result (λ fault. OnFault fault (IsRepeated family.now.classes.now
        (pointed family.now.decls.now))) }
{
    let State::New(edges) = walk.state(root) else {
        return Ok(());
    };
    if let Err(fault) = enter(alloc, family.decls, scope, root) {
        return Err(fault);
    }
    walk.begin(family.graph, root, edges)?;
    'steps: while !walk.path.is_empty() {
        if let Err(fault) = visit(alloc, family, walk, scope) {
            return Err(fault);
        }
    }
    Ok(())
}

/// Goes to all classes, from those without a parent down.
fn visit_all(
    alloc: Global,
    family: &Family<'_>,
    walk: &mut Walk,
    scope: &mut Scope,
) -> Result<(), TableFault>
    requires family { IsFamily family.now.classes.now (pointed family.now.decls.now)
        family.now.graph.now }
    requires walk { IsWalk family.now.graph.now walk.old.states.items walk.old.path.items
        walk.old.done }
    requires scope { IsScope family.now.classes.now (pointed family.now.decls.now)
        walk.old.states.items walk.old.path.items scope.old.names scope.old.counts.items }
    requires path { walk.old.path.items ≡ [] }
    ensures scope { OnOk result (IsScope family.now.classes.now (pointed family.now.decls.now)
        walk.new.states.items walk.new.path.items scope.new.names scope.new.counts.items) }
    ensures walk { OnOk result (IsWalk family.now.graph.now walk.new.states.items
        walk.new.path.items walk.new.done) }
    ensures path { OnOk result (walk.new.path.items ≡ []) }
    ensures reached { OnOk result (RootsReached family.now.classes.now
        (length family.now.classes.now) walk.new.states.items) }
    ensures fault { IfErr result (λ fault. OnFault fault (IsRepeated family.now.classes.now
        (pointed family.now.decls.now))) }
{
    for class in 0..family.classes.len() {
        if parent_of(family.classes, class).is_some() {
            continue;
        }
        if let Err(fault) = visit_from(alloc, family, walk, scope, class as u32) {
            return Err(fault);
        }
    }
    Ok(())
}

/// How many attributes each class of a family has, where their names differ.
fn count_along(alloc: Global, family: &Family<'_>) -> Result<Vec<u32>, TableFault>
    requires family { IsFamily family.now.classes.now (pointed family.now.decls.now)
        family.now.graph.now }
    ensures size { IfOk result (λ counts. length counts.items
        ≡ length (pointed family.now.decls.now)) }
    ensures counts { IfOk result (λ counts. (c : ℕ) → c < length (pointed family.now.decls.now)
        → slice_index counts.items c ≡ length (attributes_at family.now.classes.now
        (pointed family.now.decls.now) c)) }
    ensures differ { OnOk result ((c : ℕ) → c < length (pointed family.now.decls.now)
        → Differ family.now.classes.now (pointed family.now.decls.now) c) }
    ensures fault { IfErr result (λ fault. OnFault fault (IsRepeated family.now.classes.now
        (pointed family.now.decls.now))) }
{
    let counts = zeros(alloc, family.decls.len())?;
    let mut walk = Walk::new(alloc, family.graph)?;
    let names = Values::new(alloc);
    let mut scope = Scope { names, counts };
    match visit_all(alloc, family, &mut walk, &mut scope) {
        Ok(()) => Ok(scope.counts),
        Err(fault) => Err(fault),
    }
}

/// How many attributes each class has, its parent's and its own, where their names differ.
#[tactic(auto, using(crate::proofs::RangeLaws::length_pointed))]
pub(crate) fn count_attributes(
    alloc: Global,
    classes: &[Class],
    decls: &[&ClassDecl],
) -> Result<Vec<u32>, TableFault>
    requires parents { HasParents classes.now }
    requires ranks { HasRanks classes.now }
    requires size { length classes.now ≡ length (pointed decls.now) }
    requires classes { length (pointed decls.now) < 2 ^ 32 }
    requires few { length (flat_map own (pointed decls.now)) < 2 ^ 32 }
    ensures size { IfOk result (λ counts. length counts.items ≡ length (pointed decls.now)) }
    ensures counts { IfOk result (λ counts. (c : ℕ) → c < length (pointed decls.now)
        → slice_index counts.items c ≡ length (attributes_at classes.now (pointed decls.now) c)) }
    ensures differ { OnOk result ((c : ℕ) → c < length (pointed decls.now)
        → Differ classes.now (pointed decls.now) c) }
    ensures fault { IfErr result (λ fault. OnFault fault
        (IsRepeated classes.now (pointed decls.now))) }
{
    let graph = children(alloc, &ClassList { classes })?;
    let family = Family {
        classes,
        decls,
        graph: &graph,
    };
    match count_along(alloc, &family) {
        Ok(counts) => Ok(counts),
        Err(fault) => Err(fault),
    }
}
