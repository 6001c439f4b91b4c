//! Where a line, a factor times a value and an offset, is at most 0, or 0.
//!
//! The values are given, not the products, so nothing is rounded: from the end of the span at
//! which the line is greatest it takes so many steps to come down to 0.
ghost use Rattle.std.specs.Prelude.{◌≡◌, ◌<◌, ◌≤◌, ◌+◌, ◌*◌, ◌^◌, ◌<ℤ◌, ◌≤ℤ◌, ◌+ℤ◌, ◌-ℤ◌, ◌*ℤ◌, ◌&&◌, ℤ, pos, true, false, int_le, unsigned_abs, IfSome, IfNone};
ghost use Rattle.std.specs.Int.{int_max, int_min};
ghost use Rattle.std.specs.Ordering.{int_eq};
ghost use Rattle.signed_clause.specs.Ranges.{in_range};
ghost use Rattle.ground_form.specs.Bounds.{most_sum};
ghost use Rattle.form_truths.specs.Lines.{line_at, IsSpan, LiesIn, IsLine, AreThose};

/// A factor times a value, and an offset.
#[derive(Clone, Copy)]
pub struct Line {
    /// The factor.
    pub factor: i64,
    /// The offset.
    pub offset: i64,
}

/// The values from one to another.
#[derive(Clone, Copy)]
pub struct Span {
    /// The least.
    pub low: i64,
    /// The greatest.
    pub high: i64,
}

/// How many steps of this size take as much or more.
fn steps(over: u64, size: u64) -> u64
    requires some { 0 < over }
    requires size { 0 < size }
    requires fits { over ≤ 2 ^ 61 }
    ensures enough { over ≤ size * result }
    ensures few { size * result < over + size }
{
    (over - 1) / size + 1
}

/// A product that fits.
fn product(c: i64, v: i64) -> i64
    requires { unsigned_abs c * unsigned_abs v ≤ most_sum }
    ensures { result ≡ c *ℤ v }
{
    c * v
}

/// The product with an offset.
fn with_offset(product: i64, offset: i64) -> Height
    requires product { unsigned_abs product ≤ most_sum }
    requires offset { unsigned_abs offset ≤ most_sum }
    ensures value { result.value ≡ product +ℤ offset }
    ensures fits { unsigned_abs result.value ≤ 2 ^ 61 }
{
    Height {
        value: product + offset,
    }
}

/// The line at a value.
fn at(l: Line, v: i64) -> Height
    requires product { unsigned_abs l.factor * unsigned_abs v ≤ most_sum }
    requires offset { unsigned_abs l.offset ≤ most_sum }
    ensures value { result.value ≡ line_at l v }
    ensures fits { unsigned_abs result.value ≤ 2 ^ 61 }
{
    with_offset(product(l.factor, v), l.offset)
}

/// The line at the least value of the span.
fn at_low(l: Line, s: Span) -> Height
    requires line { IsLine s l }
    ensures value { result.value ≡ line_at l s.low }
    ensures fits { unsigned_abs result.value ≤ 2 ^ 61 }
{
    at(l, s.low)
}

/// The line at the greatest value of the span.
fn at_high(l: Line, s: Span) -> Height
    requires line { IsLine s l }
    ensures value { result.value ≡ line_at l s.high }
    ensures fits { unsigned_abs result.value ≤ 2 ^ 61 }
{
    at(l, s.high)
}

/// The absolute value of the factor.
fn size(l: Line) -> u64
    ensures { result ≡ unsigned_abs l.factor }
{
    l.factor.unsigned_abs()
}

/// The number with the other sign.
fn minus(v: i64) -> i64
    requires { unsigned_abs v ≤ most_sum }
    ensures { result ≡ pos 0 -ℤ v }
{
    -v
}

/// The line that is above 0 where this one is below.
fn turned(l: Line) -> Line
    requires factor { unsigned_abs l.factor ≤ most_sum }
    requires offset { unsigned_abs l.offset ≤ most_sum }
    ensures factor { result.factor ≡ pos 0 -ℤ l.factor }
    ensures offset { result.offset ≡ pos 0 -ℤ l.offset }
{
    Line {
        factor: minus(l.factor),
        offset: minus(l.offset),
    }
}

/// What a line is at a value.
#[derive(Clone, Copy)]
struct Height {
    value: i64,
}

impl Height {
    /// Whether it is at most 0.
    fn is_low(self) -> bool
        ensures { result ≡ int_le self.value (pos 0) }
    {
        self.value <= 0
    }

    /// How many steps of this size lead down to 0 or below, from above 0.
    fn steps(self, size: u64) -> u64
        requires some { pos 0 <ℤ self.value }
        requires size { 0 < size }
        requires fits { unsigned_abs self.value ≤ 2 ^ 61 }
        ensures enough { unsigned_abs self.value ≤ size * result }
        ensures few { size * result < unsigned_abs self.value + size }
    {
        steps(self.value.unsigned_abs(), size)
    }
}

/// How many steps there are from one end of a span to the other.
fn width(s: Span) -> u64
    requires span { IsSpan s }
    requires low { unsigned_abs s.low ≤ most_sum }
    requires high { unsigned_abs s.high ≤ most_sum }
    ensures { pos result ≡ s.high -ℤ s.low }
{
    (s.high - s.low) as u64
}

/// The span without so many values at its upper end.
fn lowered(s: Span, n: u64) -> Span
    requires low { unsigned_abs s.low ≤ most_sum }
    requires high { unsigned_abs s.high ≤ most_sum }
    requires steps { n ≤ 2 ^ 62 }
    ensures low { result.low ≡ s.low }
    ensures high { result.high ≡ s.high -ℤ pos n }
{
    Span {
        low: s.low,
        high: s.high - n as i64,
    }
}

/// The span without so many values at its lower end.
fn raised(s: Span, n: u64) -> Span
    requires low { unsigned_abs s.low ≤ most_sum }
    requires high { unsigned_abs s.high ≤ most_sum }
    requires steps { n ≤ 2 ^ 62 }
    ensures low { result.low ≡ s.low +ℤ pos n }
    ensures high { result.high ≡ s.high }
{
    Span {
        low: s.low + n as i64,
        high: s.high,
    }
}

/// The values of the span at which a rising line is at most 0.
fn below_rising(l: Line, s: Span) -> Option<Span>
    requires span { IsSpan s }
    requires line { IsLine s l }
    requires up { pos 0 <ℤ l.factor }
    ensures { AreThose s result (λ v. int_le (line_at l v) (pos 0)) }
{
    let top = at_high(l, s);
    if top.is_low() {
        return Some(s);
    }
    let n = top.steps(size(l));
    if n > width(s) {
        return None;
    }
    Some(lowered(s, n))
}

/// The values of the span at which a falling line is at most 0.
fn below_falling(l: Line, s: Span) -> Option<Span>
    requires span { IsSpan s }
    requires line { IsLine s l }
    requires down { l.factor <ℤ pos 0 }
    ensures { AreThose s result (λ v. int_le (line_at l v) (pos 0)) }
{
    let top = at_low(l, s);
    if top.is_low() {
        return Some(s);
    }
    let n = top.steps(size(l));
    if n > width(s) {
        return None;
    }
    Some(raised(s, n))
}

/// Whether the factor is above 0.
fn is_rising(l: Line) -> bool
    requires { 0 < unsigned_abs l.factor }
    ensures up { result ≡ true → pos 0 <ℤ l.factor }
    ensures down { result ≡ false → l.factor <ℤ pos 0 }
{
    l.factor > 0
}

/// The values of the span at which the line is at most 0.
pub fn at_most(l: Line, s: Span) -> Option<Span>
    requires span { IsSpan s }
    requires line { IsLine s l }
    ensures { AreThose s result (λ v. int_le (line_at l v) (pos 0)) }
{
    if is_rising(l) {
        below_rising(l, s)
    } else {
        below_falling(l, s)
    }
}

/// The greater of the least values, and the smaller of the greatest.
fn inner(r: Span, t: Span) -> Span
    ensures low { result.low ≡ int_max r.low t.low }
    ensures high { result.high ≡ int_min r.high t.high }
{
    Span {
        low: if r.low < t.low { t.low } else { r.low },
        high: if t.high < r.high { t.high } else { r.high },
    }
}

/// Whether the span has a value.
fn has_value(s: Span) -> bool
    ensures { result ≡ int_le s.low s.high }
{
    s.low <= s.high
}

/// The values of both spans.
fn common(r: Span, t: Span) -> Option<Span>
    ensures some { IfSome result (λ u. IsSpan u) }
    ensures values { IfSome result (λ u. (v : ℤ)
        → in_range (u.low, u.high) v ≡ (in_range (r.low, r.high) v && in_range (t.low, t.high) v)) }
    ensures none { IfNone result ((v : ℤ)
        → (in_range (r.low, r.high) v && in_range (t.low, t.high) v) ≡ false) }
{
    let u = inner(r, t);
    if has_value(u) { Some(u) } else { None }
}

/// The value of the span at which the line is 0, as a span.
pub fn zero(l: Line, s: Span) -> Option<Span>
    requires span { IsSpan s }
    requires line { IsLine s l }
    ensures { AreThose s result (λ v. int_eq (line_at l v) (pos 0)) }
{
    let other = turned(l);
    let below = at_most(l, s)?;
    let above = at_most(other, s)?;
    let both = common(below, above);
    both
}
