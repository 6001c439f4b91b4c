//! What is measured of an expression, by what was measured of its parts: one function for each kind
//! of expression.
ghost use Rattle.std.specs.Prelude.{◌≡◌, ◌+◌, ◌&&◌, ℕ, Bool, true, false, cond, min};
ghost use Rattle.class_table.specs.Outline.{Outline};
ghost use Rattle.class_table.specs.declared.table.Resolved.{Resolved as AShape};
ghost use Rattle.conf_types.specs.Trees.{Tree, Filter as AFilter, Bodies as AllBodies};
ghost use Rattle.conf_types.specs.Trees as tree;
ghost use Rattle.conf_types.specs.Operators.{class_of};
ghost use Rattle.conf_limits.specs.Limits.{capped, kept, narrowed, IsMeasure, IsFilterMeasure, IsBodiesMeasure, IsShapeThere, summed};
ghost use Rattle.conf_limits.specs.Measures.{Interval as AnInterval, is_narrow, none, shape_reach, shape_is_object, shape_interval as interval_of, looked_at_by, quantifier_weight, quantifier_interval};

use crate::capped::{capped_product, capped_sum};
use crate::interval::{Interval, many, negated, nothing, number, operated, shape_interval, up_to};
use class_table::Resolved;
use conf_syntax::{Op, QuantKind};
use conf_types::{OpClass, class_of};
use object_alloc::Objects;

/// What is measured of an expression.
#[derive(Clone, Copy, Debug)]
pub(crate) struct Measure {
    /// How many objects it may be, or how many items its list may have.
    pub reach: u64,
    pub weight: u64,
    /// Whether it is an object or a list of objects.
    pub objects: bool,
    /// Its interval, where it and those of all that stands in the expression are narrow.
    pub interval: Option<Interval>,
}

/// What is measured of a quantifier's filter.
#[derive(Clone, Copy, Debug)]
pub(crate) struct Filter {
    pub weight: u64,
    pub narrow: bool,
}

/// What is measured of a quantifier's bodies: their weight, and the interval of one of them, where
/// all that stands in them is narrow.
#[derive(Clone, Copy, Debug)]
pub(crate) struct Bodies {
    pub weight: u64,
    pub interval: Option<Interval>,
}

/// An expression without parts that is no object.
pub(crate) fn plain(interval: Option<Interval>) -> Measure
    ensures reach { result.reach ≡ 0 }
    ensures weight { result.weight ≡ 1 }
    ensures objects { result.objects ≡ false }
    ensures interval { result.interval ≡ interval }
{
    Measure {
        reach: 0,
        weight: 1,
        objects: false,
        interval,
    }
}

/// A number.
pub(crate) fn literal(value: u32) -> Measure
    ensures measure { (o : Outline) (at : ℕ) → IsMeasure result o (tree.Number at value) }
{
    plain(number(value))
}

/// An expression without parts that is an object or a list of so many.
pub(crate) fn objects(reach: u64) -> Measure
    ensures reach { result.reach ≡ reach }
    ensures weight { result.weight ≡ 1 }
    ensures objects { result.objects ≡ true }
    ensures interval { result.interval ≡ narrowed none }
{
    Measure {
        reach,
        weight: 1,
        objects: true,
        interval: Some(nothing()),
    }
}

/// The reach of an attribute of this shape, of something with this reach.
fn shape_reach(objects: &Objects<'_>, reach: u64, shape: Resolved) -> u64
    requires shape { IsShapeThere objects.now shape }
    ensures reach { (r : ℕ) → reach ≡ capped r → result ≡ capped (shape_reach objects.now r shape) }
{
    match shape {
        Resolved::One(_) => reach,
        Resolved::Many(_, count) => capped_product(reach, count as u64),
        Resolved::Ref(class) | Resolved::RefSet(class, _) => objects.extent_count(class) as u64,
        Resolved::Span(_, _) | Resolved::Truth | Resolved::Choice(_) => 0,
    }
}

fn shape_is_object(shape: Resolved) -> bool
    ensures { result ≡ shape_is_object shape }
{
    match shape {
        Resolved::One(_) | Resolved::Many(_, _) | Resolved::Ref(_) | Resolved::RefSet(_, _) => true,
        Resolved::Span(_, _) | Resolved::Truth | Resolved::Choice(_) => false,
    }
}

/// What has this weight and is an attribute of this shape, of something with this reach.
pub(crate) fn attribute(objects: &Objects<'_>, reach: u64, weight: u64, shape: Resolved) -> Measure
    requires shape { IsShapeThere objects.now shape }
    ensures reach { (r : ℕ) → reach ≡ capped r → result.reach
        ≡ capped (shape_reach objects.now r shape) }
    ensures weight { result.weight ≡ weight }
    ensures objects { result.objects ≡ shape_is_object shape }
    ensures interval { result.interval ≡ narrowed (interval_of shape) }
{
    Measure {
        reach: shape_reach(objects, reach, shape),
        weight,
        objects: shape_is_object(shape),
        interval: shape_interval(shape),
    }
}

/// An attribute of an object.
pub(crate) fn dot(objects: &Objects<'_>, owner: Measure, shape: Resolved) -> Measure
    requires shape { IsShapeThere objects.now shape }
    ensures measure { (at k : ℕ) (e : Tree) → IsMeasure owner objects.now e
        → IsMeasure result objects.now (tree.Dot at e k shape) }
{
    let weight = capped_sum(capped_sum(owner.weight, owner.reach), 1);
    let found = attribute(objects, owner.reach, weight, shape);
    if owner.interval.is_some() {
        return found;
    }
    Measure {
        reach: found.reach,
        weight,
        objects: found.objects,
        interval: None,
    }
}

/// `( .. )`.
pub(crate) fn paren(inner: Measure) -> Measure
    ensures measure { (o : Outline) (at : ℕ) (e : Tree) → IsMeasure inner o e
        → IsMeasure result o (tree.Paren at e) }
{
    Measure {
        reach: inner.reach,
        weight: capped_sum(inner.weight, 1),
        objects: inner.objects,
        interval: inner.interval,
    }
}

/// `- ..`.
pub(crate) fn minus(inner: Measure) -> Measure
    ensures measure { (o : Outline) (at : ℕ) (e : Tree) → IsMeasure inner o e
        → IsMeasure result o (tree.Minus at e) }
{
    let interval = match inner.interval {
        Some(interval) => negated(interval),
        None => None,
    };
    Measure {
        reach: 0,
        weight: capped_sum(inner.weight, 1),
        objects: false,
        interval,
    }
}

/// The interval of what isn't an integer and holds an expression with this interval.
fn emptied(interval: Option<Interval>) -> Option<Interval>
    ensures { (b : Bool) (i : AnInterval) → interval ≡ kept b i → result ≡ kept b none }
{
    match interval {
        Some(_) => Some(nothing()),
        None => None,
    }
}

/// `not ..`.
pub(crate) fn negation(inner: Measure) -> Measure
    ensures measure { (o : Outline) (at : ℕ) (e : Tree) → IsMeasure inner o e
        → IsMeasure result o (tree.Not at e) }
{
    Measure {
        reach: 0,
        weight: capped_sum(inner.weight, 1),
        objects: false,
        interval: emptied(inner.interval),
    }
}

fn looks_at_reach(op: Op, objects: bool) -> bool
    ensures { result ≡ looked_at_by (class_of op) objects }
{
    match class_of(op) {
        OpClass::Member => true,
        OpClass::Equality => objects,
        OpClass::Logic | OpClass::Order | OpClass::Sum | OpClass::Product => false,
    }
}

/// What an operator looks at of sides with these reaches.
fn looked_at(op: Op, left: Measure, right: Measure) -> u64
    ensures { (l r : ℕ) (b : Bool) → left.reach ≡ capped l → right.reach ≡ capped r → left.objects
        ≡ b → result ≡ capped (cond (looked_at_by (class_of op) b) (min l r) 0) }
{
    if looks_at_reach(op, left.objects) {
        left.reach.min(right.reach)
    } else {
        0
    }
}

/// Two expressions with an operator between them.
pub(crate) fn pair(op: Op, left: Measure, right: Measure) -> Measure
    ensures measure { (o : Outline) (at : ℕ) (l r : Tree) → IsMeasure left o l → IsMeasure right o r
        → IsMeasure result o (tree.Pair at op l r) }
{
    let sides = capped_sum(left.weight, right.weight);
    let looked = looked_at(op, left, right);
    Measure {
        reach: 0,
        weight: capped_sum(capped_sum(sides, looked), 1),
        objects: false,
        interval: operated(op, left.interval, right.interval),
    }
}

/// The number of the body whose interval a quantifier asks for.
pub(crate) fn summed(kind: QuantKind) -> usize
    ensures { result ≡ summed kind }
{
    match kind {
        QuantKind::Pack => 1,
        QuantKind::Forall
        | QuantKind::Exists
        | QuantKind::Sum
        | QuantKind::Count
        | QuantKind::AllDifferent => 0,
    }
}

/// No filter.
pub(crate) fn no_filter() -> Filter
    ensures measure { (o : Outline) → IsFilterMeasure result o tree.NoFilter }
{
    Filter {
        weight: 0,
        narrow: true,
    }
}

/// A filter.
pub(crate) fn some_filter(inner: Measure) -> Filter
    ensures measure { (o : Outline) (e : Tree) → IsMeasure inner o e → IsFilterMeasure result o
        (tree.Where e) }
{
    Filter {
        weight: inner.weight,
        narrow: inner.interval.is_some(),
    }
}

/// The weight of a quantifier over something with this reach, where what stands in it weighs so
/// much.
fn quantifier_weight(kind: QuantKind, reach: u64, inside: u64) -> u64
    ensures { (r over filter bodies : ℕ) → reach ≡ capped r → inside
        ≡ capped (1 + over + filter + bodies) → result
        ≡ capped (quantifier_weight kind r over filter bodies) }
{
    let each = capped_sum(1, capped_product(reach, inside));
    match kind {
        QuantKind::Forall | QuantKind::Exists | QuantKind::Sum | QuantKind::Count => each,
        QuantKind::AllDifferent => capped_sum(each, capped_product(reach, reach)),
        QuantKind::Pack => { capped_sum(each, capped_product(3, capped_product(reach, reach))) }
    }
}

/// The interval of a quantifier over something with this reach, where the body that it asks for has
/// this one.
fn quantifier_interval(kind: QuantKind, reach: u64, body: Interval) -> Option<Interval>
    ensures { (r : ℕ) (all : ℕ → AnInterval) → reach ≡ capped r → body ≡ all (summed kind) → result
        ≡ narrowed (quantifier_interval kind r (all 0) (all 1)) }
{
    match kind {
        QuantKind::Sum | QuantKind::Pack => many(reach, body),
        QuantKind::Count => up_to(reach),
        QuantKind::Forall | QuantKind::Exists | QuantKind::AllDifferent => Some(nothing()),
    }
}

/// The interval of a quantifier, where all that stands in it is narrow.
fn quantified(kind: QuantKind, over: Measure, filter: Filter, bodies: Bodies) -> Option<Interval>
    ensures { (r : ℕ) (a b : Bool) (i : AnInterval) (all : ℕ → AnInterval) → over.reach ≡ capped r
        → over.interval ≡ kept a i → bodies.interval ≡ kept b (all (summed kind)) → result
        ≡ kept ((a && (filter.narrow && b))
        && is_narrow (quantifier_interval kind r (all 0) (all 1)))
        (quantifier_interval kind r (all 0) (all 1)) }
{
    if over.interval.is_none() {
        return None;
    }
    if !filter.narrow {
        return None;
    }
    match bodies.interval {
        Some(body) => quantifier_interval(kind, over.reach, body),
        None => None,
    }
}

/// A quantifier.
pub(crate) fn quantifier(kind: QuantKind, over: Measure, filter: Filter, bodies: Bodies) -> Measure
    ensures measure { (o : Outline) (at : ℕ) (e : Tree) (f : AFilter) (bs : AllBodies)
        → IsMeasure over o e → IsFilterMeasure filter o f → IsBodiesMeasure bodies o (summed kind)
        bs → IsMeasure result o (tree.Quant at kind e f bs) }
{
    let inside = capped_sum(
        capped_sum(capped_sum(1, over.weight), filter.weight),
        bodies.weight,
    );
    Measure {
        reach: 0,
        weight: quantifier_weight(kind, over.reach, inside),
        objects: false,
        interval: quantified(kind, over, filter, bodies),
    }
}
