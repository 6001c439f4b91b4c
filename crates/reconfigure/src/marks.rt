//! Which objects are in some of a list: one mark for each object, and the set of the marked ones.
//!
//! An object is held by one with a lesser number, so that one pass over the objects in order tells
//! of each what its owner's mark is.
ghost use Rattle.std.specs.Prelude.{◌≡◌, ◌<◌, ◌≤◌, ◌+◌, ◌^◌, ◌||◌, ℕ, ℤ, false, nat_eq, length, slice_index_or, IfOk};
ghost use Rattle.std.specs.List.{All, list_any};
ghost use Rattle.object_alloc.specs.Paths.{owner_in};
ghost use Rattle.object_alloc.specs.Walk.{objects as all_objects};
ghost use Rattle.signed_clause.specs.Ranges.{has};
ghost use Rattle.reconfigure.specs.Marking.{AreMarks, is_marked, is_owner_marked};

use object_alloc::{Object, Objects};
use signed_clause::IntSet;
use std::alloc::{AllocError, Global};

/// So many marks, those of the list set.
fn own_marks(alloc: Global, count: usize, numbers: &[u32]) -> Result<Vec<bool>, AllocError>
    requires there { All (λ n. n < count) numbers.now }
    ensures count { IfOk result (λ ms. length ms.items ≡ count) }
    ensures marks { IfOk result (λ ms. (k : ℕ) → k < count
        → slice_index_or ms.items k false ≡ list_any (nat_eq k) numbers.now) }
{
    let mut marks = Vec::new(alloc);
    marks.resize(count, false)?;
    for n in numbers {
        marks[*n as usize] = true;
    }
    Ok(marks)
}

/// The object that holds an object.
fn owner_at(objects: &[Object], n: usize) -> Option<u32>
    requires { n < length objects.now }
    ensures { result ≡ owner_in objects.now n }
{
    objects[n].owner
}

/// Whether the object that holds one is marked. At the top level none does.
fn is_owner_marked(marks: &[bool], owner: Option<u32>) -> bool
    ensures { result ≡ is_owner_marked marks.now owner }
{
    match owner {
        Some(p) => match marks.get(p as usize) {
            Some(mark) => *mark,
            None => false,
        },
        None => false,
    }
}

/// Whether one of two things is so.
fn either(own: bool, held: bool) -> bool
    ensures { result ≡ (own || held) }
{
    own || held
}

/// One mark for each object: whether it is in one of the list.
pub(crate) fn marks_of(
    alloc: Global,
    objects: &Objects<'_>,
    numbers: &[u32],
) -> Result<Vec<bool>, AllocError>
    requires there { All (λ n. n < length (all_objects objects.now)) numbers.now }
    ensures count { IfOk result (λ ms. length ms.items ≡ length (all_objects objects.now)) }
    ensures marks { IfOk result (λ ms. AreMarks objects.now numbers.now ms.items) }
{
    let list = objects.objects();
    let own = own_marks(alloc, list.len(), numbers)?;
    let mut marks = Vec::new(alloc);
    for n in 0..list.len() {
        let held = is_owner_marked(&marks, owner_at(list, n));
        marks.push(either(own[n], held))?;
    }
    Ok(marks)
}

/// The numbers of the marked objects, of which the first mark is that of object `first`. The set is
/// made by halves, so that no long set is copied for each object.
pub(crate) fn marked_set(alloc: Global, marks: &[bool], first: usize) -> Result<IntSet, AllocError>
    requires few { first + length marks.now ≤ 2 ^ 32 }
    ensures { IfOk result (λ s. (v : ℤ) → has s v ≡ is_marked first marks.now v) }
{
    match marks {
        [] => Ok(IntSet::empty(alloc)),
        [mark] => {
            if *mark {
                Ok(IntSet::range(alloc, first as i64, first as i64))
            } else {
                Ok(IntSet::empty(alloc))
            }
        }
        more => {
            let half = more.len() / 2;
            let front = marked_set(alloc, &more[..half], first)?;
            let back = marked_set(alloc, &more[half..], first + half)?;
            let all = front.join(&back)?;
            Ok(all)
        }
    }
}
