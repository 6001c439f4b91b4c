//! The graphs of derivation and of containment, made from a model's classes.
ghost use Rattle.std.specs.Prelude.{◌≡◌, ◌++◌, [], map, None, Some, IfOk, OnOk, option_copied};
ghost use Rattle.std.specs.List.{flat_map};
ghost use Rattle.class_table.specs.Names.{means};
ghost use Rattle.class_table.specs.Outline.{class_meant, parent_named};
ghost use Rattle.class_table.specs.Faults.{pointed, contained_name};
ghost use Rattle.class_table.specs.Graphs.{to_class, named_edges, parent_edges, derivation, member_edges, class_edges, containment};

use crate::names::{NameMeaning, Space};
use conf_syntax::{ClassDecl, Ident, Member, Name, Shape};
use graph_walk::{Edge, Edges};
use std::alloc::{AllocError, Global};

/// The class that a name means.
fn class_of(names: &Space, name: &Name) -> Option<u32>
    ensures { result ≡ class_meant (means names.now.entries name.now) }
{
    match names.get(name).copied() {
        Some(NameMeaning::Class(class)) => Some(class),
        _ => None,
    }
}

/// Adds an edge to the class that a name means, if it means one.
fn add_named(names: &Space, ident: &Ident, edges: &mut Vec<Edge>) -> Result<(), AllocError>
    ensures { OnOk result (edges.new.items ≡ edges.old.items ++ named_edges names.now.entries
        (Some ident.now)) }
{
    if let Some(to) = class_of(names, &ident.name) {
        edges.push(Edge {
            to,
            place: Some(ident.at),
        })?;
    }
    Ok(())
}

/// The edge of a class to its parent.
fn edges_to_parent(alloc: Global, names: &Space, decl: &ClassDecl) -> Result<Edges, AllocError>
    ensures { IfOk result (λ edges. edges ≡ parent_edges names.now.entries decl.now) }
{
    let mut edges = Vec::new(alloc);
    if let Some(ident) = &decl.parent {
        add_named(names, ident, &mut edges)?;
    }
    Ok(Edges::of(edges))
}

/// The graph of derivation.
pub(crate) fn derivation(
    alloc: Global,
    names: &Space,
    decls: &[&ClassDecl],
) -> Result<Vec<Edges>, AllocError>
    ensures graph { IfOk result (λ graph. graph.items ≡ derivation names.now.entries
        (pointed decls.now)) }
{
    let mut graph = Vec::new(alloc);
    for decl in decls {
        graph.push(edges_to_parent(alloc, names, decl)?)?;
    }
    Ok(graph)
}

/// The name in a shape `NAME` or `NAME[count]`.
fn contained_name(shape: &Shape) -> Option<&Ident>
    ensures { option_copied result ≡ contained_name shape.now }
{
    match shape {
        Shape::Named(ident) | Shape::Many(ident, _) => Some(ident),
        _ => None,
    }
}

/// Adds the edge of a member, if it has one.
fn add_member(names: &Space, member: &Member, edges: &mut Vec<Edge>) -> Result<(), AllocError>
    ensures { OnOk result (edges.new.items ≡ edges.old.items ++ member_edges names.now.entries
        member.now) }
{
    let Member::Var(decl) = member else {
        return Ok(());
    };
    match contained_name(&decl.shape) {
        Some(ident) => add_named(names, ident, edges),
        None => Ok(()),
    }
}

/// The edges of the members of a class.
fn edges_of_members(
    alloc: Global,
    names: &Space,
    members: &[Member],
) -> Result<Vec<Edge>, AllocError>
    ensures { IfOk result (λ edges. edges.items ≡ flat_map (member_edges names.now.entries)
        members.now) }
{
    let mut edges = Vec::new(alloc);
    for member in members {
        add_member(names, member, &mut edges)?;
    }
    Ok(edges)
}

/// The edges of a class in the graph of containment.
fn edges_of_class(alloc: Global, names: &Space, decl: &ClassDecl) -> Result<Edges, AllocError>
    ensures { IfOk result (λ edges. edges ≡ class_edges names.now.entries decl.now) }
{
    let mut edges = edges_of_members(alloc, names, decl.members.items())?;
    if let Some(ident) = &decl.parent {
        if let Some(to) = class_of(names, &ident.name) {
            edges.push(Edge { to, place: None })?;
        }
    }
    Ok(Edges::of(edges))
}

/// The graph of containment.
pub(crate) fn containment(
    alloc: Global,
    names: &Space,
    decls: &[&ClassDecl],
) -> Result<Vec<Edges>, AllocError>
    ensures graph { IfOk result (λ graph. graph.items ≡ containment names.now.entries
        (pointed decls.now)) }
{
    let mut graph = Vec::new(alloc);
    for decl in decls {
        graph.push(edges_of_class(alloc, names, decl)?)?;
    }
    Ok(graph)
}
