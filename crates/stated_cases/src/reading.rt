//! The entries that constraints say.
ghost use Rattle.std.specs.Prelude.{◌≡◌, ◌∷◌, [], Contains, IfOk, IfSome, OnOk};
ghost use Rattle.std.specs.List.{All};
ghost use Rattle.ground_form.specs.declared.con.Con.TheVariants as con;
ghost use Rattle.stated_cases.specs.Tables.{IsEntry};

use crate::entries::Entry;
use form_build::Maker;
use ground_form::Con;
use signed_clause::IntSet;
use std::alloc::AllocError;

/// The literals of a clause of two.
fn literals_of(c: &Con) -> Option<(&(u32, IntSet), &(u32, IntSet))>
    ensures { IfSome result (λ p. c.now ≡ con.ClauseCon (p.0.now ∷ p.1.now ∷ [])) }
{
    match c {
        Con::ClauseCon { clause } => match clause.clause().literals() {
            [l, m] => Some((l, m)),
            _ => None,
        },
        _ => None,
    }
}

/// The entry whose index is that of the first literal.
fn entry_of(l: &(u32, IntSet), m: &(u32, IntSet)) -> Result<Entry, AllocError>
    ensures index { IfOk result (λ e. e.index ≡ l.now.0) }
    ensures others { IfOk result (λ e. e.others ≡ l.now.1) }
    ensures number { IfOk result (λ e. e.number ≡ m.now.0) }
    ensures values { IfOk result (λ e. e.values ≡ m.now.1) }
{
    let others = l.1.copy()?;
    let values = m.1.copy()?;
    Ok(Entry {
        index: l.0,
        others,
        number: m.0,
        values,
    })
}

/// The constraint of this number.
fn con_at(maker: &Maker, k: usize) -> Option<&Con>
    ensures { IfSome result (λ c. Contains maker.now.cons c.now) }
{
    let cons = maker.cons();
    if k < cons.len() { Some(&cons[k]) } else { None }
}

/// The entry that the constraint is, by its first variable or, turned, by its second.
fn entry_in(maker: &Maker, c: &Con, turned: bool) -> Result<Option<Entry>, AllocError>
    requires { Contains maker.now.cons c.now }
    ensures { IfOk result (λ o. IfSome o (λ e. IsEntry maker.now e)) }
{
    let Some((l, m)) = literals_of(c) else {
        return Ok(None);
    };
    if turned {
        let back = entry_of(m, l)?;
        return Ok(Some(back));
    }
    let e = entry_of(l, m)?;
    Ok(Some(e))
}

/// The entry that constraint k is.
fn entry_at(maker: &Maker, k: usize, turned: bool) -> Result<Option<Entry>, AllocError>
    ensures { IfOk result (λ o. IfSome o (λ e. IsEntry maker.now e)) }
{
    match con_at(maker, k) {
        Some(c) => {
            let e = entry_in(maker, c, turned)?;
            Ok(e)
        }
        None => Ok(None),
    }
}

/// Adds the entry that constraint k is.
fn push_at(maker: &Maker, out: &mut Vec<Entry>, k: usize, turned: bool) -> Result<(), AllocError>
    requires { All (IsEntry maker.now) out.old.items }
    ensures { OnOk result (All (IsEntry maker.now) out.new.items) }
{
    if let Some(e) = entry_at(maker, k, turned)? {
        out.push(e)?;
    }
    Ok(())
}

/// The entries of a table, which are these constraints.
pub(crate) fn entries_of(
    maker: &Maker,
    group: &[(u32, u32, usize)],
    turned: bool,
) -> Result<Vec<Entry>, AllocError>
    ensures { IfOk result (λ es. All (IsEntry maker.now) es.items) }
{
    let mut out = Vec::new(maker.alloc());
    for place in group {
        push_at(maker, &mut out, place.2, turned)?;
    }
    Ok(out)
}

/// The variables of each clause of two literals, with the clause's number, in order.
pub(crate) fn pairs_of(maker: &Maker) -> Result<Vec<(u32, u32, usize)>, AllocError> {
    let mut out = Vec::new(maker.alloc());
    for (k, con) in maker.cons().iter().enumerate() {
        if let Some((l, m)) = literals_of(con) {
            out.push((l.0, m.0, k))?;
        }
    }
    out.sort_unstable();
    Ok(out)
}
