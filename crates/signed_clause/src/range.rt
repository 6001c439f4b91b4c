//! What two ranges say of one another.
//!
//! A range is its least and its greatest value, both 64 bits with a sign; where the first is above
//! the second it is empty. The walks over sets ask here at each step. Each function says its answer
//! exactly, and no sum leaves the type at its ends.
ghost use Rattle.std.specs.Prelude.{◌≡◌, ◌<ℤ◌, ◌+ℤ◌, ◌-ℤ◌, pos, int_lt, int_le, unsigned_abs};
ghost use Rattle.std.specs.Int.{int_max, int_min};

/// Whether there are values from `r.0` to `r.1`.
pub fn is_range(r: (i64, i64)) -> bool
    ensures { result ≡ int_le r.0 r.1 }
{
    r.0 <= r.1
}

/// Whether `r` ends before `v`.
pub fn ends_before(r: (i64, i64), v: i64) -> bool
    ensures { result ≡ int_lt r.1 v }
{
    r.1 < v
}

/// Whether `r` begins at `v` or before.
pub fn begins_by(r: (i64, i64), v: i64) -> bool
    ensures { result ≡ int_le r.0 v }
{
    r.0 <= v
}

/// Whether `a` ends before `b` does.
pub fn ends_first(a: (i64, i64), b: (i64, i64)) -> bool
    ensures { result ≡ int_lt a.1 b.1 }
{
    a.1 < b.1
}

/// Whether `a` begins no later than `b`.
pub fn begins_no_later(a: (i64, i64), b: (i64, i64)) -> bool
    ensures { result ≡ int_le a.0 b.0 }
{
    a.0 <= b.0
}

/// Whether `r` has values below `s`.
pub fn begins_first(r: (i64, i64), s: (i64, i64)) -> bool
    ensures { result ≡ int_le r.0 (int_min r.1 (s.0 -ℤ pos 1)) }
{
    r.0 <= r.1 && r.0 < s.0
}

/// Whether a value lies between the end of `p` and the start of `r`.
pub fn has_gap_before(p: (i64, i64), r: (i64, i64)) -> bool
    ensures { result ≡ int_lt (p.1 +ℤ pos 1) r.0 }
{
    p.1 < r.0 && p.1 + 1 < r.0
}

/// Whether some value is in both ranges.
pub fn overlap(a: (i64, i64), b: (i64, i64)) -> bool
    ensures { result ≡ int_le (int_max a.0 b.0) (int_min a.1 b.1) }
{
    a.0.max(b.0) <= a.1.min(b.1)
}

/// The values of both ranges, if there are any.
pub fn common(a: (i64, i64), b: (i64, i64)) -> (i64, i64)
    ensures { result ≡ (int_max a.0 b.0, int_min a.1 b.1) }
{
    (a.0.max(b.0), a.1.min(b.1))
}

/// From the start of `p` to the later end.
pub fn covering(p: (i64, i64), r: (i64, i64)) -> (i64, i64)
    ensures { result ≡ (p.0, int_max p.1 r.1) }
{
    (p.0, p.1.max(r.1))
}

/// What `r` has before `s`.
pub fn before(r: (i64, i64), s: (i64, i64)) -> (i64, i64)
    requires { r.0 <ℤ s.0 }
    ensures { result ≡ (r.0, int_min r.1 (s.0 -ℤ pos 1)) }
{
    (r.0, r.1.min(s.0 - 1))
}

/// What `r` has behind the end of `s`.
pub fn after(r: (i64, i64), s: (i64, i64)) -> (i64, i64)
    requires { s.1 <ℤ r.1 }
    ensures { result ≡ (int_max r.0 (s.1 +ℤ pos 1), r.1) }
{
    (r.0.max(s.1 + 1), r.1)
}

/// How far apart the ends are: of a range one less than the number of its values.
pub fn steps(r: (i64, i64)) -> u64
    ensures { result ≡ unsigned_abs (r.1 -ℤ r.0) }
{
    r.1.abs_diff(r.0)
}
