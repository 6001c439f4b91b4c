//! The sizes of extents, from the classes of all objects.
ghost use Rattle.std.specs.Prelude.{◌≡◌, ◌+◌, ◌<◌, ◌≤◌, ℕ, length, slice_index, IfOk};
ghost use Rattle.std.specs.List.{sum_by};
ghost use Rattle.model_limits.specs.Limits.{most_objects};
ghost use Rattle.class_table.specs.Sound.{IsSound};
ghost use Rattle.object_alloc.specs.Sums.{of_kind, kin, IsLawful};

use crate::queue::Kind;
use class_table::ClassTable;
use std::alloc::{AllocError, Global};

/// So many zeros.
fn zeros(alloc: Global, count: u32) -> Result<Vec<u32>, AllocError>
    ensures count { IfOk result (λ sizes. length sizes.items ≡ count) }
    ensures zeros { IfOk result (λ sizes. (c : ℕ) → slice_index sizes.items c ≡ 0) }
{
    let mut sizes = Vec::new(alloc);
    for _class in 0..count {
        sizes.push(0)?;
    }
    Ok(sizes)
}

/// Counts an object of this class: for the class itself and for each of its ancestors.
fn count_kin(table: &ClassTable, sizes: &mut [u32], class: u32)
    requires sound { IsSound table.now }
    requires class { class < length table.now.classes }
    requires count { length sizes.old ≡ length table.now.classes }
    requires few { (c : ℕ) → slice_index sizes.old c ≤ most_objects }
    ensures each { (c : ℕ) → c < length table.now.classes → slice_index sizes.new c
        ≡ slice_index sizes.old c + kin table.now c class 0 }
{
    let mut at = class;
    sizes[at as usize] += 1;
    for _step in 0..table.class_count() {
        match table.parent(at) {
            Some(parent) => {
                at = parent;
                sizes[at as usize] += 1;
            }
            None => return,
        }
    }
}

/// How many objects the extent of each class has.
pub(crate) fn extent_sizes(
    alloc: Global,
    table: &ClassTable,
    queue: &[Kind],
) -> Result<Vec<u32>, AllocError>
    requires sound { IsSound table.now }
    requires lawful { IsLawful (length table.now.classes) 1 queue.now }
    requires few { length queue.now ≤ most_objects }
    ensures count { IfOk result (λ sizes. length sizes.items ≡ length table.now.classes) }
    ensures each { IfOk result (λ sizes. (c : ℕ) → c < length table.now.classes
        → slice_index sizes.items c ≡ sum_by (of_kind (kin table.now c)) queue.now) }
{
    let mut sizes = zeros(alloc, table.class_count())?;
    for kind in queue {
        count_kin(table, &mut sizes, kind.class);
    }
    Ok(sizes)
}
