//! Lists of terms: two of them together, and one times a number.
//!
//! The variables of a list ascend, so two lists are merged in one walk over both.
ghost use Rattle.std.specs.Prelude.{◌≡◌, ◌<◌, ◌≤◌, ◌+◌, ◌^◌, ◌*◌, ◌+ℤ◌, [], ◌∷◌, ◌++◌, ◌⊎◌, drop, length, unsigned_abs, IfOk, OnOk};
ghost use Rattle.std.specs.List.{All};
ghost use Rattle.form_build.specs.Merged.{scaled, with_term, merged};

use std::alloc::{AllocError, Global};

/// The terms times a number.
pub fn scaled(alloc: Global, c: i64, terms: &[(i64, u32)]) -> Result<Vec<(i64, u32)>, AllocError>
    requires { All (λ t. unsigned_abs c * unsigned_abs t.0 ≤ 2 ^ 62) terms.now }
    ensures { IfOk result (λ out. out.items ≡ scaled c terms.now) }
{
    let mut out = Vec::new(alloc);
    for t in terms {
        push_scaled(&mut out, c, *t)?;
    }
    Ok(out)
}

/// Adds a term times a number.
fn push_scaled(out: &mut Vec<(i64, u32)>, c: i64, t: (i64, u32)) -> Result<(), AllocError>
    requires { unsigned_abs c * unsigned_abs t.0 ≤ 2 ^ 62 }
    ensures { OnOk result (out.new.items ≡ out.old.items ++ scaled c (t ∷ [])) }
{
    out.push((c * t.0, t.1))?;
    Ok(())
}

/// Both lists as one, with one term for each variable.
pub fn merged(
    alloc: Global,
    a: &[(i64, u32)],
    b: &[(i64, u32)],
) -> Result<Vec<(i64, u32)>, AllocError>
    requires left { All (λ t. unsigned_abs t.0 ≤ 2 ^ 61) a.now }
    requires right { All (λ t. unsigned_abs t.0 ≤ 2 ^ 61) b.now }
    ensures { IfOk result (λ out. out.items ≡ merged a.now b.now) }
{
    let mut out = Vec::new(alloc);
    let mut i = 0;
    let mut j = 0;
    while i < a.len() || j < b.len() {
        let (next_i, next_j) = push_next(&mut out, a, i, b, j)?;
        i = next_i;
        j = next_j;
    }
    Ok(out)
}

/// Adds the next term by its variable, and answers the indexes behind what it is made of.
fn push_next(
    out: &mut Vec<(i64, u32)>,
    a: &[(i64, u32)],
    i: usize,
    b: &[(i64, u32)],
    j: usize,
) -> Result<(usize, usize), AllocError>
    requires some { (i < length a.now) ⊎ (j < length b.now) }
    requires i_within { i ≤ length a.now }
    requires j_within { j ≤ length b.now }
    requires left { All (λ t. unsigned_abs t.0 ≤ 2 ^ 61) a.now }
    requires right { All (λ t. unsigned_abs t.0 ≤ 2 ^ 61) b.now }
    ensures i_within { IfOk result (λ n. n.0 ≤ length a.now) }
    ensures j_within { IfOk result (λ n. n.1 ≤ length b.now) }
    ensures merged { IfOk result (λ n. out.new.items ++ merged (drop n.0 a.now) (drop n.1 b.now)
        ≡ out.old.items ++ merged (drop i a.now) (drop j b.now)) }
    ensures steps { IfOk result (λ n. i + j < n.0 + n.1) }
{
    if i < a.len() && (j >= b.len() || a[i].1 < b[j].1) {
        out.push(a[i])?;
        Ok((i + 1, j))
    } else if i >= a.len() || b[j].1 < a[i].1 {
        out.push(b[j])?;
        Ok((i, j + 1))
    } else {
        push_joined(out, a[i], b[j])?;
        Ok((i + 1, j + 1))
    }
}

/// Adds two terms of one variable as one, or nothing where they cancel.
fn push_joined(out: &mut Vec<(i64, u32)>, t: (i64, u32), u: (i64, u32)) -> Result<(), AllocError>
    requires left { unsigned_abs t.0 ≤ 2 ^ 61 }
    requires right { unsigned_abs u.0 ≤ 2 ^ 61 }
    ensures { OnOk result (out.new.items ≡ out.old.items ++ with_term (t.0 +ℤ u.0) t.1 []) }
{
    let c = t.0 + u.0;
    if c != 0 {
        out.push((c, t.1))?;
    }
    Ok(())
}
