//! Points at which a constraint is true, by what `test_small_problems` has written out of its
//! meaning; and whether pruning keeps them.
use crate::harness::Settled;
use ground_form::Ground;
use signed_clause::IntSet;
use std::alloc::{AllocError, Global};
use test_small_problems::{is_solution, point_of};

/// The values of a point: the digits of `n` to the base 4, and the value of a domain that has one
/// alone.
fn nth_point(alloc: Global, n: u32, domains: &[IntSet]) -> Result<Vec<i64>, AllocError> {
    let mut rest = n;
    let mut values = Vec::new(alloc);
    for d in domains {
        if d.is_single() {
            values.push(d.least().unwrap_or(0))?;
        } else {
            values.push(i64::from(rest % 4))?;
            rest /= 4;
        }
    }
    Ok(values)
}

/// The points at which the problem's constraints are true.
pub(crate) fn true_points(alloc: Global, g: &Ground) -> Result<Vec<Vec<i64>>, AllocError> {
    let mut points = Vec::new(alloc);
    for n in 0..256u32 {
        let point = nth_point(alloc, n, g.domains.items())?;
        if is_solution(g, &point_of(&point)) {
            points.push(point)?;
        }
    }
    Ok(points)
}

/// Whether the point lies in the boxes.
fn is_within(boxes: &[IntSet], point: &[i64]) -> bool {
    boxes.iter().zip(point).all(|(s, v)| s.contains(*v))
}

/// Whether each of the points that lies in the boxes lies in what is left of them.
pub(crate) fn keeps_points(points: &[Vec<i64>], boxes: &[IntSet], left: &Settled) -> bool {
    match left {
        Settled::Left(sets) => points
            .iter()
            .all(|point| !is_within(boxes, point) || is_within(sets, point)),
        _ => points.iter().all(|point| !is_within(boxes, point)),
    }
}
