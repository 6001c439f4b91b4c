//! `Kit`, propagators for every kind of constraint.
//!
//! A kit is made of propagators that its caller boxes, and refuses a list that leaves a kind
//! without one. It asks the first member that handles a constraint's kind, which a table made with
//! the kit names. No type can keep what a boxed propagator handles, so the member is asked once
//! whether it handles the kind.
ghost use Rattle.std.specs.Prelude.{◌≡◌, ◌<◌, ◌↔◌, Bool, true, List, IfOk, IfErr, IfSome, IfNone, IsOk, false, length, map, slice_get, slice_index_or};
ghost use Rattle.ground_form.specs.declared.kind.Kind.{Kind};
ghost use Rattle.ground_form.specs.Kinds as kinds;
ghost use Rattle.ground_form.specs.WellMade.{IsWellMade};
ghost use Rattle.rule_law.specs.Answers.{AreBoxesWithin, IsAnswer};
ghost use Rattle.rule_law.specs.Cover.{rank, covers, CoversAll, IsLeastMissing};

use crate::probing::probe;
use crate::propagator::Propagator;
use ground_form::{Ground, Kind, kind_of};
use signed_clause::{Clause, IntSet};
use std::alloc::AllocError;

/// Whether the propagator handles the kind.
fn does_handle(p: &Box<dyn Propagator>, kind: Kind) -> bool
    ensures { result ≡ handled p.now kind }
{
    p.handles(kind)
}

/// Whether some member handles the kind.
fn is_covered(list: &[Box<dyn Propagator>], kind: Kind) -> bool
    ensures { result ≡ covers (map (λ p. handled p) list.now) kind }
{
    for p in list {
        if does_handle(p, kind) {
            return true;
        }
    }
    false
}

/// Lets the propagator forget what it cached.
fn begin_one(p: &mut Box<dyn Propagator>)
    ensures { handled p.new ≡ handled p.old }
{
    p.begin();
}

/// Lets every member forget what it cached.
fn begin_all(list: &mut [Box<dyn Propagator>])
    ensures { map (λ p. handled p) list.new ≡ map (λ p. handled p) list.old }
{
    let mut i = 0;
    while i < list.len() {
        begin_one(&mut list[i]);
        i += 1;
    }
}

/// Which member is the first that handles the kind, where one does.
fn first_for(list: &[Box<dyn Propagator>], kind: Kind) -> Option<usize>
    ensures within { IfSome result (λ i. i < length list.now) }
    ensures handles { IfSome result (λ i. (d : _) → handled (slice_index_or list.now i d) kind
        ≡ true) }
    ensures none { IfNone result (covers (map (λ p. handled p) list.now) kind ≡ false) }
{
    let mut i = 0;
    while i < list.len() {
        if does_handle(&list[i], kind) {
            return Some(i);
        }
        i += 1;
    }
    None
}

/// What the propagator answers.
fn prune_one(
    p: &mut Box<dyn Propagator>,
    g: &Ground,
    k: u32,
    boxes: &[IntSet],
) -> Result<Option<Clause>, AllocError>
    requires well_made { IsWellMade g.now }
    requires con { k < length g.now.cons }
    requires handled { IfSome (slice_get g.now.cons k) (λ con. handled p.old (kinds.kind_of con)
        ≡ true) }
    requires boxes { AreBoxesWithin g.now.domains boxes.now }
    ensures answer { IfOk result (λ answer. IfSome (slice_get g.now.cons k)
        (λ con. IsAnswer con g.now.domains boxes.now answer)) }
    ensures handled { handled p.new ≡ handled p.old }
{
    p.prune(g, k, boxes)
}

/// What the member at the index answers.
fn prune_at(
    list: &mut [Box<dyn Propagator>],
    index: usize,
    g: &Ground,
    k: u32,
    boxes: &[IntSet],
) -> Result<Option<Clause>, AllocError>
    requires index { index < length list.old }
    requires well_made { IsWellMade g.now }
    requires con { k < length g.now.cons }
    requires handled { IfSome (slice_get g.now.cons k) (λ con. (d : _)
        → handled (slice_index_or list.old index d) (kinds.kind_of con) ≡ true) }
    requires boxes { AreBoxesWithin g.now.domains boxes.now }
    ensures answer { IfOk result (λ answer. IfSome (slice_get g.now.cons k)
        (λ con. IsAnswer con g.now.domains boxes.now answer)) }
    ensures handled { map (λ p. handled p) list.new ≡ map (λ p. handled p) list.old }
{
    prune_one(&mut list[index], g, k, boxes)
}

/// The kind with the number.
fn nth_kind(n: usize) -> Kind
    requires { n < 11 }
    ensures { rank result ≡ n }
{
    match n {
        0 => Kind::LinLe,
        1 => Kind::LinDef,
        2 => Kind::ReifLe,
        3 => Kind::AndDef,
        4 => Kind::MemberDef,
        5 => Kind::EqDef,
        6 => Kind::ElementDef,
        7 => Kind::CondDef,
        8 => Kind::ClauseCon,
        9 => Kind::AllDiff,
        _ => Kind::Pack,
    }
}

/// The number of the kind.
fn number_of(kind: Kind) -> usize
    ensures number { result ≡ rank kind }
    ensures below { result < 11 }
{
    match kind {
        Kind::LinLe => 0,
        Kind::LinDef => 1,
        Kind::ReifLe => 2,
        Kind::AndDef => 3,
        Kind::MemberDef => 4,
        Kind::EqDef => 5,
        Kind::ElementDef => 6,
        Kind::CondDef => 7,
        Kind::ClauseCon => 8,
        Kind::AllDiff => 9,
        Kind::Pack => 10,
    }
}

/// Which member is the first that handles each kind, by the kind's number; 0 where none does.
fn first_members(list: &[Box<dyn Propagator>]) -> [usize; 11]
    ensures { (kind : Kind) → covers (map (λ p. handled p) list.now) kind ≡ true
        → (d : _) → handled (slice_index_or list.now (slice_index_or result (rank kind) 0) d) kind
        ≡ true }
{
    let mut members = [0; 11];
    for n in 0..members.len() {
        if let Some(i) = first_for(list, nth_kind(n)) {
            members[n] = i;
        }
    }
    members
}

/// Which member handles the kind, where one does: the one that the table names, if it does.
fn member_for(list: &[Box<dyn Propagator>], members: &[usize; 11], kind: Kind) -> Option<usize>
    ensures within { IfSome result (λ i. i < length list.now) }
    ensures handles { IfSome result (λ i. (d : _) → handled (slice_index_or list.now i d) kind
        ≡ true) }
    ensures none { IfNone result (covers (map (λ p. handled p) list.now) kind ≡ false) }
{
    let i = members[number_of(kind)];
    if i < list.len() && does_handle(&list[i], kind) {
        return Some(i);
    }
    first_for(list, kind)
}

/// The least kind that no member handles.
fn first_missing(list: &[Box<dyn Propagator>]) -> Option<Kind>
    ensures some { IfSome result (λ kind. IsLeastMissing (map (λ p. handled p) list.now) kind) }
    ensures none { IfNone result (CoversAll (map (λ p. handled p) list.now)) }
{
    for n in 0..11 {
        let kind = nth_kind(n);
        if !is_covered(list, kind) {
            return Some(kind);
        }
    }
    None
}

/// A list of propagators leaves a kind without one.
#[derive(Drop)]
pub struct MissingKind {
    /// The least such kind.
    pub kind: Kind,
    /// The list, unchanged.
    pub list: Vec<Box<dyn Propagator>>,
}

/// Propagators of which each kind has one.
pub struct Kit {
    list: Vec<Box<dyn Propagator>>,
    members: [usize; 11],
}

impl Drop for Kit {
    fn drop(self) {
        let Kit {
            list: _,
            members: _,
        } = self;
    }
}

impl Kit {
    /// The kit of these members. It takes no memory.
    ///
    /// # Errors
    /// `MissingKind`, with the list, exactly where no member handles some kind; it names the least
    /// such kind.
    pub fn new(list: Vec<Box<dyn Propagator>>) -> Result<Kit, MissingKind>
        ensures ok { IfOk result (λ kit. kit.list ≡ list) }
        ensures complete { IfOk result (λ kit. CoversAll (map (λ p. handled p) list.items)) }
        ensures missing { IfErr result (λ e. IsLeastMissing (map (λ p. handled p) list.items)
            e.kind) }
        ensures list { IfErr result (λ e. e.list ≡ list) }
    {
        match first_missing(list.as_slice()) {
            Some(kind) => Err(MissingKind { kind, list }),
            None => {
                let members = first_members(list.as_slice());
                Ok(Kit { list, members })
            }
        }
    }

    /// Lets every member forget what it cached.
    pub fn begin(&mut self)
        ensures { map (λ p. handled p) self.new.list.items
            ≡ map (λ p. handled p) self.old.list.items }
    {
        begin_all(self.list.as_mut_slice());
    }

    /// A clause that constraint `k` justifies and that is unit or false in the boxes; None where
    /// the constraint is quiet. That each kind has a member isn't known here: a constraint of a
    /// kind without one would be probed.
    ///
    /// # Errors
    /// Want of memory.
    pub fn prune(
        &mut self,
        g: &Ground,
        k: u32,
        boxes: &[IntSet],
    ) -> Result<Option<Clause>, AllocError>
        requires well_made { IsWellMade g.now }
        requires con { k < length g.now.cons }
        requires boxes { AreBoxesWithin g.now.domains boxes.now }
        ensures answer { IfOk result (λ answer. IfSome (slice_get g.now.cons k)
            (λ con. IsAnswer con g.now.domains boxes.now answer)) }
        ensures same { map (λ p. handled p) self.new.list.items
            ≡ map (λ p. handled p) self.old.list.items }
    {
        let con = &g.cons.items()[k as usize];
        match member_for(self.list.as_slice(), &self.members, kind_of(con)) {
            Some(index) => prune_at(self.list.as_mut_slice(), index, g, k, boxes),
            None => probe(con, g.domains.items(), boxes, *self.list.allocator()),
        }
    }
}
