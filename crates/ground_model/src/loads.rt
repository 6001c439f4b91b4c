//! What the parts of a sum or a count add to a bin.
ghost use Rattle.std.specs.Prelude.{◌≡◌, ◌∷◌, ◌++◌, ◌&&◌, ◌+ℤ◌, ◌-ℤ◌, [], ℤ, List, true, pos, IfOk, IfSome};
ghost use Rattle.form_build.specs.declared.form.Truth.TheVariants as truth;
ghost use Rattle.form_build.specs.Forms.{linear_at, truth_at};
ghost use Rattle.quantifier_forms.specs.PartValues.{share};
ghost use Rattle.packed_rows.specs.Loads.{load_of};
ghost use Rattle.ground_model.specs.Adding.{shares_of, counted_where, counts};

use conf_syntax::QuantKind;
use expr_forms::Form;
use form_build::{Linear, Truth};
use ground_form::Number;
use packed_rows::Row;
use quantifier_forms::Part;
use signed_clause::IntSet;
use std::alloc::{AllocError, Global};

/// The number that a sum is, where it has no variable.
pub(crate) fn fixed_number(f: &Linear) -> Option<Number>
    ensures { IfSome result (λ n. (a : List ℤ) → linear_at f.now a ≡ n.value) }
{
    match f.terms.items() {
        [] => Some(Number { value: f.offset }),
        _ => None,
    }
}

/// Whether the truth holds in any case.
fn is_sure(t: &Truth) -> bool
    ensures { result ≡ true → t.now ≡ truth.Fixed true }
{
    match t {
        Truth::Fixed(b) => *b,
        Truth::In(_, _) => false,
    }
}

/// When a part of a sum counts, and its size then, where that is fixed.
fn summed(p: &Part) -> Option<(&Truth, Number)>
    ensures { IfSome result (λ l. (a : List ℤ) → share QuantKind.Sum p.now a
        ≡ counted_where l.0.now l.1.value a) }
{
    match p.bodies.as_slice() {
        [Form::Number(f), ..] => {
            let size = fixed_number(f)?;
            Some((&p.kept, size))
        }
        _ => None,
    }
}

/// Of a truth that a part is kept and the truth of its one body, the one that tells when both hold.
fn telling<'a>(kept: &'a Truth, body: &'a Truth) -> Option<&'a Truth>
    ensures { IfSome result (λ t. (a : List ℤ) → truth_at t.now a
        ≡ (truth_at kept.now a && truth_at body.now a)) }
{
    if is_sure(kept) {
        Some(body)
    } else if is_sure(body) {
        Some(kept)
    } else {
        None
    }
}

/// When a part of a count counts, where one truth tells.
fn counted(p: &Part) -> Option<(&Truth, Number)>
    ensures { IfSome result (λ l. (a : List ℤ) → share QuantKind.Count p.now a
        ≡ counted_where l.0.now l.1.value a) }
{
    match p.bodies.as_slice() {
        [Form::Truth(body)] => {
            let t = telling(&p.kept, body)?;
            Some((t, Number { value: 1 }))
        }
        _ => None,
    }
}

/// When a part counts, and its size then.
fn load(kind: QuantKind, p: &Part) -> Option<(&Truth, Number)>
    ensures { IfSome result (λ l. (a : List ℤ) → share kind p.now a
        ≡ counted_where l.0.now l.1.value a) }
{
    match kind {
        QuantKind::Sum => summed(p),
        QuantKind::Count => counted(p),
        QuantKind::Forall | QuantKind::Exists | QuantKind::AllDifferent | QuantKind::Pack => None,
    }
}

/// Whether the set has the row's bin and no other value.
fn is_bin(set: &IntSet, row: &Row) -> bool
    ensures { result ≡ true → set.now ≡ (row.now.bin, row.now.bin) ∷ [] }
{
    match set.ranges() {
        [r] => r.0 == row.bin && r.1 == row.bin,
        _ => false,
    }
}

/// What is left of the row's room without the size, where that can be said.
fn left_of(row: &Row, size: Number) -> Option<Number>
    ensures { IfSome result (λ n. n.value ≡ row.now.room -ℤ size.value) }
{
    match row.room.checked_sub(size.value) {
        Some(value) => Some(Number { value }),
        None => None,
    }
}

/// The row with another room.
fn with_room(row: Row, room: Number) -> Row
    ensures bin { result.bin ≡ row.bin }
    ensures loads { result.loads ≡ row.loads }
    ensures room { result.room ≡ room.value }
{
    Row {
        bin: row.bin,
        loads: row.loads,
        room: room.value,
    }
}

/// The row with one more load.
fn with_load(row: Row, x: u32, size: Number) -> Result<Row, AllocError>
    ensures bin { IfOk result (λ r. r.bin ≡ row.bin) }
    ensures loads { IfOk result (λ r. r.loads.items ≡ row.loads.items ++ (x, size.value) ∷ []) }
    ensures room { IfOk result (λ r. r.room ≡ row.room) }
{
    let mut row = row;
    row.loads.push((x, size.value))?;
    Ok(row)
}

/// The row with what counts so much where a truth holds, where it can be added; what holds in any
/// case is taken from the row's room.
fn added(row: Row, t: &Truth, size: Number) -> Result<Option<Row>, AllocError>
    ensures { IfOk result (λ o. IfSome o (λ r. (room sum : ℤ) (a : List ℤ) → counts row room sum a
        → counts r room (sum +ℤ counted_where t.now size.value a) a)) }
{
    match t {
        Truth::Fixed(holds) => {
            if !*holds {
                return Ok(Some(row));
            }
            let Some(room) = left_of(&row, size) else {
                return Ok(None);
            };
            Ok(Some(with_room(row, room)))
        }
        Truth::In(x, set) => {
            if !is_bin(set, &row) {
                return Ok(None);
            }
            let row = with_load(row, *x, size)?;
            Ok(Some(row))
        }
    }
}

/// The row with what a part adds, where it can be added.
fn with_part(row: Row, kind: QuantKind, p: &Part) -> Result<Option<Row>, AllocError>
    ensures { IfOk result (λ o. IfSome o (λ r. (room sum : ℤ) (a : List ℤ) → counts row room sum a
        → counts r room (sum +ℤ share kind p.now a) a)) }
{
    let Some((t, size)) = load(kind, p) else {
        return Ok(None);
    };
    let r = added(row, t, size)?;
    Ok(r)
}

/// A row of no loads.
fn empty_row(alloc: Global, bin: i64, room: Number) -> Row
    ensures loads { result.loads.items ≡ [] }
    ensures room { result.room ≡ room.value }
{
    Row {
        bin,
        loads: Vec::new(alloc),
        room: room.value,
    }
}

/// The row of these parts in a bin of this room, where they can be one.
pub(crate) fn row_from(
    alloc: Global,
    bin: i64,
    kind: QuantKind,
    parts: &[Part],
    room: Number,
) -> Result<Option<Row>, AllocError>
    ensures { IfOk result (λ o. IfSome o (λ r. (a : List ℤ)
        → counts r room.value (shares_of kind parts.now a) a)) }
{
    let mut row = empty_row(alloc, bin, room);
    for p in parts {
        let added = with_part(row, kind, p)?;
        let Some(more) = added else {
            return Ok(None);
        };
        row = more;
    }
    Ok(Some(row))
}
