//! Entries of tables, and what two of them say together.
ghost use Rattle.std.specs.Prelude.{◌≡◌, true, IfOk, IfSome};
ghost use Rattle.ground_form.specs.declared.ground.Ground.{Ground};
ghost use Rattle.stated_cases.specs.Tables.{IsEntry};

use signed_clause::IntSet;
use std::alloc::AllocError;

/// The index is one of the others, or the number is one of the values.
#[derive(Drop)]
pub struct Entry {
    /// The variable whose value tells the case.
    pub index: u32,
    /// The values of the index that are of other cases.
    pub others: IntSet,
    /// The variable that has its values by cases.
    pub number: u32,
    /// The values that it may have in this case.
    pub values: IntSet,
}

/// Whether both are over the same index and the same number.
fn are_of_one_table(d: &Entry, e: &Entry) -> bool
    ensures index { result ≡ true → d.now.index ≡ e.now.index }
    ensures number { result ≡ true → d.now.number ≡ e.now.number }
{
    d.index == e.index && d.number == e.number
}

/// What two entries of one table say together: their resolvent on the index.
pub(crate) fn both(d: &Entry, e: &Entry) -> Result<Option<Entry>, AllocError>
    ensures { IfOk result (λ o. IfSome o (λ f. (g : Ground) → IsEntry g d.now → IsEntry g e.now
        → IsEntry g f)) }
{
    if !are_of_one_table(d, e) {
        return Ok(None);
    }
    let others = d.others.meet(&e.others)?;
    let values = d.values.join(&e.values)?;
    Ok(Some(Entry {
        index: e.index,
        others,
        number: e.number,
        values,
    }))
}
