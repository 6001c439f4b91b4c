//! The boxes of a table, and in how many of them a propagator does what it should.
ghost use Rattle.std.specs.Prelude.{◌<◌, length};
ghost use Rattle.ground_form.specs.WellMade.{IsWellMade};

use crate::harness::{Settled, settle_alike};
use crate::points::keeps_points;
use ground_form::Ground;
use rule_law::{Propagator, are_boxes_within};
use signed_clause::IntSet;
use std::alloc::{AllocError, Global};

/// Boxes over some values: those of the numbers 0, `step`, twice `step` and so on.
#[derive(Clone, Copy)]
pub(crate) struct Table<'a> {
    /// The values.
    pub(crate) values: &'a [i64],
    /// How far the numbers of two boxes are apart.
    pub(crate) step: u32,
    /// How many boxes there are.
    pub(crate) count: u32,
}

/// Of each domain the values whose bits are set in its digit of `n`, and all of a domain of one
/// value.
fn nth_boxes(
    alloc: Global,
    domains: &[IntSet],
    values: &[i64],
    n: u32,
) -> Result<Vec<IntSet>, AllocError> {
    let mut rest = n;
    let mut boxes = Vec::new(alloc);
    for d in domains {
        if d.is_single() {
            boxes.push(d.copy()?)?;
            continue;
        }
        let mut part = IntSet::empty(alloc);
        for v in values {
            if rest % 2 == 1 {
                part = part.join(&IntSet::range(alloc, *v, *v))?;
            }
            rest /= 2;
        }
        boxes.push(d.meet(&part)?)?;
    }
    Ok(boxes)
}

/// How many of the table's boxes lie within the domains, where the propagator and plain probing
/// leave the same of each, and lose none of the points; else 0.
pub(crate) fn count_agreeing<P: Propagator>(
    p: &mut P,
    g: &Ground,
    table: Table<'_>,
    points: &[Vec<i64>],
    alloc: Global,
) -> Result<u32, AllocError>
    requires well_made { IsWellMade g.now }
    requires con { 3 < length g.now.cons }
{
    let domains = g.domains.items();
    let mut cases = 0u32;
    for k in 0..table.count {
        let number = k.saturating_mul(table.step);
        let boxes = nth_boxes(alloc, domains, table.values, number)?;
        if are_boxes_within(domains, boxes.as_slice()) {
            let left = settle_alike(p, g, boxes.as_slice(), alloc)?;
            if matches!(&left, Settled::Wrong) || !keeps_points(points, &boxes, &left) {
                return Ok(0);
            }
            cases = cases.saturating_add(1);
        }
    }
    Ok(cases)
}
