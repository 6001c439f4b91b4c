//! Which problems are searched, and with how many decisions.
use crate::packings::{Shape, packing_by_packs, packing_by_sums};
use crate::pigeons::{holes_by_packing, holes_by_sums};
use crate::problems::Problem;
use std::alloc::{AllocError, Global};

/// How many rows there are.
pub(crate) const ROWS: u32 = 10;

/// What is to be searched.
#[derive(Clone, Copy)]
enum Subject {
    HolesBySums(u32),
    HolesByPacking(u32),
    PackingBySums(Shape),
    PackingByPacks(Shape),
}

/// A problem and its budgets.
#[derive(Clone, Copy)]
pub(crate) struct Row {
    /// What it is called.
    pub(crate) name: &'static str,
    /// How many decisions a short run may take.
    pub(crate) small: u32,
    /// How many decisions a long run may take.
    pub(crate) large: u32,
    subject: Subject,
}

/// The row of a number.
pub(crate) fn nth_row(number: u32) -> Row {
    let few = Shape { bins: 4, items: 12 };
    let many = Shape { bins: 8, items: 30 };
    let (name, small, large, subject) = match number {
        0 => (
            "pigeons, 8 holes, by sums",
            10_000,
            10_000,
            Subject::HolesBySums(8),
        ),
        1 => (
            "pigeons, 9 holes, by sums",
            10_000,
            10_000,
            Subject::HolesBySums(9),
        ),
        2 => (
            "pigeons, 10 holes, by sums",
            10_000,
            10_000,
            Subject::HolesBySums(10),
        ),
        3 => (
            "pigeons, 10 holes, by packing",
            10_000,
            10_000,
            Subject::HolesByPacking(10),
        ),
        4 => (
            "packing 4x12 by sums",
            500,
            10_000,
            Subject::PackingBySums(few),
        ),
        5 => (
            "packing 4x12 by packs",
            500,
            10_000,
            Subject::PackingByPacks(few),
        ),
        6 => (
            "packing 8x30 by sums",
            500,
            10_000,
            Subject::PackingBySums(many),
        ),
        7 => (
            "packing 8x30 by packs",
            500,
            10_000,
            Subject::PackingByPacks(many),
        ),
        8 => (
            "longer 8x30 by sums",
            1_000,
            20_000,
            Subject::PackingBySums(many),
        ),
        _ => (
            "longer 8x30 by packs",
            1_000,
            20_000,
            Subject::PackingByPacks(many),
        ),
    };
    Row {
        name,
        small,
        large,
        subject,
    }
}

/// The problem of a row.
pub(crate) fn problem_of(alloc: Global, row: Row) -> Result<Problem, AllocError> {
    match row.subject {
        Subject::HolesBySums(holes) => holes_by_sums(alloc, holes),
        Subject::HolesByPacking(holes) => holes_by_packing(alloc, holes),
        Subject::PackingBySums(shape) => packing_by_sums(alloc, shape),
        Subject::PackingByPacks(shape) => packing_by_packs(alloc, shape),
    }
}
