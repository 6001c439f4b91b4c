//! Spans of a row: which of its entries a range of values covers, where the entries are for values
//! that follow one another.
ghost use Rattle.std.specs.Prelude.{◌≡◌, ◌≤◌, ◌<◌, ◌+ℤ◌, ℕ, pos, int_le, int_lt, nat_lt};
ghost use Rattle.signed_clause.specs.Ranges.{in_range};
ghost use Rattle.pack_prop.specs.Spans.{is_in};

use ground_form::Number;

/// The entries from `begin` on that are before `end`.
#[derive(Clone, Copy)]
pub struct Span {
    /// The first of them.
    pub begin: usize,
    /// The one behind the last.
    pub end: usize,
}

/// How many of the `n` values from `first` on are less than the number.
fn count_below(at: Number, first: Number, n: usize) -> usize
    ensures within { result ≤ n }
    ensures values { (e : ℕ) → e < n → int_lt (first.value +ℤ pos e) at.value ≡ nat_lt e result }
{
    if at.value <= first.value {
        return 0;
    }
    let d = at.value.abs_diff(first.value);
    if d < n as u64 { d as usize } else { n }
}

/// How many of them are at most the number.
fn count_upto(at: Number, first: Number, n: usize) -> usize
    ensures within { result ≤ n }
    ensures values { (e : ℕ) → e < n → int_le (first.value +ℤ pos e) at.value ≡ nat_lt e result }
{
    if at.value < first.value {
        return 0;
    }
    let d = at.value.abs_diff(first.value);
    if d < n as u64 { d as usize + 1 } else { n }
}

/// The entries of the range's values, of `n` entries for the values from `first` on.
pub fn span_of(r: (i64, i64), first: Number, n: usize) -> Span
    ensures within { result.end ≤ n }
    ensures values { (e : ℕ) → e < n → in_range r (first.value +ℤ pos e) ≡ is_in result e }
{
    Span {
        begin: count_below(Number { value: r.0 }, first, n),
        end: count_upto(Number { value: r.1 }, first, n),
    }
}
