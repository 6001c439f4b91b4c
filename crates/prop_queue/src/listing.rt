//! Which numbers are listed, each at most once.
//!
//! A mark says of each number whether it is listed, so a number that is listed again costs a look
//! at its mark. Room for every number is made at the start.
ghost use Rattle.std.specs.Prelude.{◌≡◌, ◌<◌, ◌==◌, ◌||◌, ◌^◌, ℕ, suc, Some, cond, false, true, length, slice_set, IfOk, IfSome, IfNone};
ghost use Rattle.rule_law.specs.Reasons.{has_number};
ghost use Rattle.prop_queue.specs.Work.{is_marked};
ghost use Rattle.prop_queue.specs.Urgencies.{first_of};

use crate::lists::Lists;
use crate::urgency::Urgency;
use std::alloc::{AllocError, Global};
use std::marker::Model;

/// Listed numbers.
#[derive(Drop)]
pub struct Listing {
    marks: Vec<bool>,
    urgencies: Vec<Urgency>,
    lists: Lists,
}

impl Model for Listing {
    ghost use Rattle.std.specs.Prelude.{◌≡◌, ◌≤◌, ◌<◌, ◌^◌, length};
    ghost use Rattle.prop_queue.specs.Lists.{Listed, listed, IsKept};
    ghost use Rattle.prop_queue.specs.Urgencies.{order_of};

    ghost Value = { Listed };

    ghost view = { λ l. listed l.marks.items (order_of l.lists) };

    ghost invariant = { λ l. IsKept l.marks.items (order_of l.lists)
        × (length l.urgencies.items ≡ length l.marks.items)
        × (length l.marks.items ≤ l.lists.room)
        × (length l.marks.items < 2 ^ 32) };
}

/// As many marks, none of them set.
fn no_marks(alloc: Global, count: usize) -> Result<Vec<bool>, AllocError>
    ensures size { IfOk result (λ marks. length marks.items ≡ count) }
    ensures none { IfOk result (λ marks. (k : ℕ) → is_marked marks.items k ≡ false) }
{
    let mut marks = Vec::with_capacity(alloc, count)?;
    for _ in 0..count {
        marks.push(false)?;
    }
    Ok(marks)
}

/// Sets the mark of the number.
fn set_mark(marks: &mut Vec<bool>, k: u32, mark: bool)
    requires { k < length marks.old.items }
    ensures { marks.new.items ≡ slice_set marks.old.items k mark }
{
    marks[k as usize] = mark;
}

impl Listing {
    /// None of so many numbers, with the urgency of each.
    ///
    /// # Errors
    /// Want of memory.
    #[tactic(auto, using(crate::proofs::MarkLaws::none_kept))]
    pub fn of(alloc: Global, urgencies: Vec<Urgency>) -> Result<Listing, AllocError>
        requires { length urgencies.items < 2 ^ 32 }
        ensures size { IfOk result (λ l. length l.marks ≡ length urgencies.items) }
        ensures none { IfOk result (λ l. (k : ℕ) → is_marked l.marks k ≡ false) }
    {
        let marks = no_marks(alloc, urgencies.len())?;
        let lists = Lists::with_room(alloc, urgencies.len())?;
        Ok(Listing {
            marks,
            urgencies,
            lists,
        })
    }

    /// How many numbers there are, listed or not.
    fn len(&self) -> usize
        ensures size { result ≡ length self.now.marks }
        ensures few { result < 2 ^ 32 }
    {
        self.marks.len()
    }

    /// Lists the number, where it isn't listed. It takes no memory.
    #[tactic(auto, using(crate::proofs::MarkLaws::marked_set))]
    pub fn list(&mut self, k: u32)
        requires { k < length self.old.marks }
        ensures size { length self.new.marks ≡ length self.old.marks }
        ensures marks { (j : ℕ) → is_marked self.new.marks j
            ≡ (is_marked self.old.marks j || k == j) }
    {
        if !self.marks[k as usize] {
            let urgency = self.urgencies[k as usize];
            set_mark(&mut self.marks, k, true);
            self.lists.push(urgency, k);
        }
    }

    /// The first listed number, where there is one: one of the soonest urgency.
    #[tactic(auto, using(crate::proofs::MarkLaws::first_there))]
    pub fn first(&self) -> Option<u32>
        ensures first { result ≡ first_of self.now.order }
        ensures some { IfSome result (λ k. is_marked self.now.marks k ≡ true) }
        ensures there { IfSome result (λ k. k < length self.now.marks) }
        ensures none { IfNone result ((k : ℕ) → is_marked self.now.marks k ≡ false) }
    {
        self.lists.front()
    }

    /// Takes it off, where there is one.
    #[tactic(auto, using(crate::proofs::MarkLaws::below_first, crate::proofs::MarkLaws::marked_set, crate::proofs::MarkLaws::none_marked))]
    pub fn unlist_first(&mut self) -> Option<u32>
        ensures first { result ≡ first_of self.old.order }
        ensures size { length self.new.marks ≡ length self.old.marks }
        ensures marks { (k : ℕ) → first_of self.old.order ≡ Some k → (j : ℕ)
            → is_marked self.new.marks j ≡ cond (k == j) false (is_marked self.old.marks j) }
        ensures fewer { (k : ℕ) → first_of self.old.order ≡ Some k
            → suc (length self.new.order) ≡ length self.old.order }
        ensures none { IfNone result ((j : ℕ) → is_marked self.new.marks j ≡ false) }
    {
        match self.lists.pop() {
            Some(k) => {
                set_mark(&mut self.marks, k, false);
                Some(k)
            }
            None => None,
        }
    }
}

/// Lists every number of the row. It costs the row's length, and takes no memory.
pub fn list_row(listing: &mut Listing, row: &[u32])
    requires { (k : ℕ) → has_number k row.now ≡ true → k < length listing.old.marks }
    ensures size { length listing.new.marks ≡ length listing.old.marks }
    ensures marks { (j : ℕ) → is_marked listing.new.marks j
        ≡ (is_marked listing.old.marks j || has_number j row.now) }
{
    for k in row {
        listing.list(*k);
    }
}

/// Takes every number off. It costs as many steps as there are listed ones.
pub fn list_none(listing: &mut Listing)
    ensures size { length listing.new.marks ≡ length listing.old.marks }
    ensures marks { (k : ℕ) → is_marked listing.new.marks k ≡ false }
{
    while listing.unlist_first().is_some() {}
}
