//! Which clauses stand as constraints: a table of them, by their variables and sets.
ghost use Rattle.std.specs.Prelude.{◌≡◌, ◌++◌, ◌∷◌, [], List, false, not, cond, IfOk, OnOk};
ghost use Rattle.std.specs.Cmp.Lexicographic.{pointwise};
ghost use Rattle.std.specs.List.{list_any};
ghost use Rattle.std.specs.Ordering.{int_eq};
ghost use Rattle.ground_form.specs.declared.con.Con.{Con as ACon};
ghost use Rattle.ground_form.specs.declared.con.Con.TheVariants.{ClauseCon};
ghost use Rattle.conf_session.specs.Keeping.{is_stated};
ghost use Rattle.conf_session.specs.Keys.{range_ends, clause_words, has_key, AreKeysOf};

use ground_form::Con;
use indexmap::IndexSet;
use signed_clause::{Clause, IntSet};
use std::alloc::{AllocError, Global};

/// A clause as numbers: of each literal its variable, how many ranges it has, and their ends.
#[derive(Debug, PartialEq, Eq, Hash, Drop)]
pub(crate) struct ClauseKey {
    words: Vec<i64>,
}

/// The clauses that stand as constraints.
pub(crate) type Stated = IndexSet<ClauseKey>;

/// Adds the ends of ranges.
fn push_ends(words: &mut Vec<i64>, ranges: &[(i64, i64)]) -> Result<(), AllocError>
    ensures { OnOk result (words.new.items ≡ words.old.items ++ range_ends ranges.now) }
{
    for range in ranges {
        words.push(range.0)?;
        words.push(range.1)?;
    }
    Ok(())
}

/// Adds a literal.
fn push_literal(words: &mut Vec<i64>, literal: &(u32, IntSet)) -> Result<(), AllocError>
    ensures { OnOk result (words.new.items
        ≡ words.old.items ++ clause_words (literal.now ∷ [])) }
{
    let ranges = literal.1.ranges();
    words.push(literal.0 as i64)?;
    words.push(ranges.len() as i64)?;
    push_ends(words, ranges)
}

/// The key of a clause.
fn key_of(alloc: Global, clause: &Clause) -> Result<ClauseKey, AllocError>
    ensures { IfOk result (λ key. key.words.items ≡ clause_words clause.now) }
{
    let literals = clause.literals();
    let mut words = Vec::new(alloc);
    for literal in literals {
        push_literal(&mut words, literal)?;
    }
    Ok(ClauseKey { words })
}

/// Adds a key, and answers whether it is new.
fn insert_key(stated: &mut Stated, key: ClauseKey) -> Result<bool, AllocError>
    ensures new { IfOk result (λ new. new ≡ not (list_any
        (λ k. pointwise int_eq key.words.items k.words.items) stated.old.keys)) }
    ensures keys { IfOk result (λ new. stated.new.keys
        ≡ cond new (stated.old.keys ++ key ∷ []) stated.old.keys) }
{
    Ok(stated.insert(key)?)
}

/// Adds a clause, and answers whether it is new.
#[tactic(auto, using(crate::proofs::KeyLaws::key_new, crate::proofs::KeyLaws::key_either, crate::proofs::KeyLaws::key_same_keys))]
pub(crate) fn insert(
    alloc: Global,
    stated: &mut Stated,
    clause: &Clause,
) -> Result<bool, AllocError>
    ensures new { IfOk result (λ new. (cons : List ACon) → AreKeysOf cons stated.old.keys
        → new ≡ not (is_stated cons clause.now)) }
    ensures keys { IfOk result (λ new. (cons : List ACon) → AreKeysOf cons stated.old.keys
        → AreKeysOf (cons ++ ClauseCon clause.now ∷ []) stated.new.keys) }
    ensures same { IfOk result (λ new. new ≡ false → stated.new.keys ≡ stated.old.keys) }
{
    let key = key_of(alloc, clause)?;
    let new = insert_key(stated, key)?;
    Ok(new)
}

/// Adds the clause that a constraint is, where it is one.
fn note(alloc: Global, stated: &mut Stated, con: &Con) -> Result<(), AllocError>
    ensures { OnOk result ((cons : List ACon) → AreKeysOf cons stated.old.keys
        → AreKeysOf (cons ++ con.now ∷ []) stated.new.keys) }
{
    if let Con::ClauseCon { clause } = con {
        insert(alloc, stated, clause.clause())?;
    }
    Ok(())
}

/// The clauses that stand among these constraints.
pub(crate) fn stated_clauses(alloc: Global, cons: &[Con]) -> Result<Stated, AllocError>
    ensures { IfOk result (λ stated. AreKeysOf cons.now stated.keys) }
{
    let mut stated = IndexSet::new(alloc);
    for con in cons {
        note(alloc, &mut stated, con)?;
    }
    Ok(stated)
}
