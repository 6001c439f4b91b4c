//! The pairs of variables that constraints say to differ.
ghost use Rattle.std.specs.Prelude.{◌≡◌, ◌+ℤ◌, pos, ◌∷◌, [], ℤ, List, true, Contains, IfOk, IfSome, OnOk};
ghost use Rattle.std.specs.List.{All};
ghost use Rattle.ground_form.specs.declared.con.Con.TheVariants as con;
ghost use Rattle.ground_form.specs.declared.ground.Ground.{Ground};
ghost use Rattle.ground_form.specs.Meaning.{value_of, con_true};
ghost use Rattle.stated_pairs.specs.Apart.{IsApart};

use form_build::Maker;
use ground_form::{Con, Number};
use signed_clause::IntSet;
use std::alloc::AllocError;

/// The literal that the constraint is, where it is a clause of one.
fn only_literal(c: &Con) -> Option<&(u32, IntSet)>
    ensures { IfSome result (λ l. c.now ≡ con.ClauseCon (l.now ∷ [])) }
{
    match c {
        Con::ClauseCon { clause } => match clause.clause().literals() {
            [l] => Some(l),
            _ => None,
        },
        _ => None,
    }
}

/// Notes that constraint k is a literal of its variable.
fn note_index(indexes: &mut [usize], con: &Con, k: usize) {
    if let Some(l) = only_literal(con) {
        let x = l.0 as usize;
        if x < indexes.len() {
            indexes[x] = k;
        }
    }
}

/// For each variable the number of a constraint: of one of which a literal is stated that of a
/// literal of it. Who reads it looks whether it is.
fn literal_indexes(maker: &Maker) -> Result<Vec<usize>, AllocError> {
    let mut indexes = Vec::new(maker.alloc());
    indexes.resize(maker.domains().len(), 0)?;
    for (k, con) in maker.cons().iter().enumerate() {
        note_index(&mut indexes, con, k);
    }
    Ok(indexes)
}

/// The constraint that is noted for a variable.
fn noted<'a>(maker: &'a Maker, indexes: &[usize], x: u32) -> Option<&'a Con>
    ensures { IfSome result (λ c. Contains maker.now.cons c.now) }
{
    let x = x as usize;
    if x >= indexes.len() {
        return None;
    }
    con_at(maker, indexes[x])
}

/// The set of which it is stated that it has the variable's value.
fn set_stated<'a>(maker: &'a Maker, indexes: &[usize], x: u32) -> Option<&'a IntSet>
    ensures { IfSome result (λ s. Contains maker.now.cons (con.ClauseCon ((x, s.now) ∷ []))) }
{
    let l = only_literal(noted(maker, indexes, x)?)?;
    if l.0 == x { Some(&l.1) } else { None }
}

/// Wherever two variables have the same value, a third one has this one.
#[derive(Clone, Copy)]
struct Telling {
    /// The third variable.
    by: u32,
    /// Its value.
    value: Number,
    /// The one variable.
    left: u32,
    /// The other variable.
    right: u32,
}

/// What an equality tells: its flag is 1.
fn equality(c: &Con) -> Option<Telling>
    ensures { IfSome result (λ t. (a : List ℤ) → con_true c.now a ≡ true
        → value_of a t.left ≡ value_of a t.right → value_of a t.by ≡ t.value.value) }
{
    match c {
        Con::EqDef { flag, left, right } => Some(Telling {
            by: *flag,
            value: Number { value: 1 },
            left: *left,
            right: *right,
        }),
        _ => None,
    }
}

/// Whether two terms of one variable would be nothing together.
fn are_opposite(s: (i64, u32), t: (i64, u32)) -> bool
    ensures { result ≡ true → (s.0 +ℤ t.0) ≡ pos 0 }
{
    match s.0.checked_add(t.0) {
        Some(sum) => sum == 0,
        None => false,
    }
}

/// Whether the offset is 0, and the two terms would be nothing together.
fn is_nothing(s: (i64, u32), t: (i64, u32), offset: i64) -> bool
    ensures offset { result ≡ true → offset ≡ pos 0 }
    ensures opposite { result ≡ true → (s.0 +ℤ t.0) ≡ pos 0 }
{
    offset == 0 && are_opposite(s, t)
}

/// What a difference of two variables tells: it is 0.
#[tactic(auto, using(crate::proofs::PairLaws::difference_is))]
fn difference(c: &Con) -> Option<Telling>
    ensures { IfSome result (λ t. (a : List ℤ) → con_true c.now a ≡ true
        → value_of a t.left ≡ value_of a t.right → value_of a t.by ≡ t.value.value) }
{
    let Con::LinDef { out, terms, offset } = c else {
        return None;
    };
    match terms.items() {
        [s, t] => {
            if is_nothing(*s, *t, *offset) {
                Some(Telling {
                    by: *out,
                    value: Number { value: 0 },
                    left: s.1,
                    right: t.1,
                })
            } else {
                None
            }
        }
        _ => None,
    }
}

/// What a constraint tells of two variables that have the same value.
fn told_by(c: &Con) -> Option<Telling>
    ensures { IfSome result (λ t. (a : List ℤ) → con_true c.now a ≡ true
        → value_of a t.left ≡ value_of a t.right → value_of a t.by ≡ t.value.value) }
{
    match equality(c) {
        Some(t) => Some(t),
        None => difference(c),
    }
}

/// The pair of which a constraint tells something, where it is stated that this isn't so.
fn pair_of(maker: &Maker, indexes: &[usize], c: &Con) -> Option<(u32, u32)>
    requires { Contains maker.now.cons c.now }
    ensures { IfSome result (λ p. IsApart maker.now p) }
{
    let t = told_by(c)?;
    let set = set_stated(maker, indexes, t.by)?;
    if set.contains(t.value.value) {
        None
    } else {
        Some((t.left, t.right))
    }
}

/// The pair with its smaller variable first.
fn ascending(p: (u32, u32)) -> (u32, u32)
    ensures { (g : Ground) → IsApart g p → IsApart g result }
{
    if p.0 <= p.1 { p } else { (p.1, p.0) }
}

/// The constraint of this number.
fn con_at(maker: &Maker, k: usize) -> Option<&Con>
    ensures { IfSome result (λ c. Contains maker.now.cons c.now) }
{
    let cons = maker.cons();
    if k < cons.len() { Some(&cons[k]) } else { None }
}

/// The pair of constraint k, where it has one.
fn pair_at(maker: &Maker, indexes: &[usize], k: usize) -> Option<(u32, u32)>
    ensures { IfSome result (λ p. IsApart maker.now p) }
{
    let c = con_at(maker, k)?;
    let p = pair_of(maker, indexes, c)?;
    Some(ascending(p))
}

/// Adds the pair of constraint k, where it has one.
fn push_pair(
    maker: &Maker,
    indexes: &[usize],
    pairs: &mut Vec<(u32, u32)>,
    k: usize,
) -> Result<(), AllocError>
    requires { All (IsApart maker.now) pairs.old.items }
    ensures { OnOk result (All (IsApart maker.now) pairs.new.items) }
{
    if let Some(p) = pair_at(maker, indexes, k) {
        pairs.push(p)?;
    }
    Ok(())
}

/// The pairs that the constraints say to differ.
fn pairs_read(maker: &Maker) -> Result<Vec<(u32, u32)>, AllocError>
    ensures { IfOk result (λ pairs. All (IsApart maker.now) pairs.items) }
{
    let indexes = literal_indexes(maker)?;
    let mut pairs = Vec::new(maker.alloc());
    for k in 0..maker.cons().len() {
        push_pair(maker, indexes.as_slice(), &mut pairs, k)?;
    }
    Ok(pairs)
}

/// The pairs in order.
fn sorted(pairs: Vec<(u32, u32)>) -> Vec<(u32, u32)>
    ensures { (g : Ground) → All (IsApart g) pairs.items → All (IsApart g) result.items }
{
    let mut pairs = pairs;
    pairs.sort_unstable();
    pairs
}

/// Adds a pair that isn't the last one.
fn push_new(out: &mut Vec<(u32, u32)>, p: (u32, u32)) -> Result<(), AllocError>
    ensures { OnOk result ((g : Ground) → IsApart g p → All (IsApart g) out.old.items
        → All (IsApart g) out.new.items) }
{
    let last = out.len();
    if last > 0 && out[last - 1] == p {
        return Ok(());
    }
    out.push(p)?;
    Ok(())
}

/// The pairs that the constraints say to differ, in order, the smaller variable first.
pub(crate) fn pairs_stated(maker: &Maker) -> Result<Vec<(u32, u32)>, AllocError>
    ensures { IfOk result (λ pairs. All (IsApart maker.now) pairs.items) }
{
    let read = pairs_read(maker)?;
    let all = sorted(read);
    let mut out = Vec::new(maker.alloc());
    for p in all.as_slice() {
        push_new(&mut out, *p)?;
    }
    Ok(out)
}
