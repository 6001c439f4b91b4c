//! What sets that are stated of one variable have in common, stated.
ghost use Rattle.std.specs.Prelude.{◌≡◌, ◌<◌, ◌∷◌, [], length, slice_set, Contains, IfOk, IfSome, OnOk};
ghost use Rattle.std.specs.List.{All};
ghost use Rattle.signed_clause.specs.Clauses.{box_of};
ghost use Rattle.ground_form.specs.declared.con.Con.TheVariants as con;
ghost use Rattle.form_build.specs.Worlds.{Defines};
ghost use Rattle.stated_sets.specs.Joined.{IsStated, AreStated, IsJoining};

use form_build::Maker;
use form_truths::{Test, literal, state};
use ground_form::{Con, copy_sets};
use signed_clause::IntSet;
use std::alloc::AllocError;

/// So many sets are joined at a time.
const BLOCK: u32 = 64;

/// What the sets that weren't joined so far have in common.
#[derive(Drop)]
struct Joining {
    /// For each variable the values of its domain that all of its sets have.
    sets: Vec<IntSet>,
    /// How many sets that are.
    counts: Vec<u32>,
    /// Variables with what so many sets have in common.
    blocks: Vec<(u32, IntSet)>,
}

/// The literal that the constraint is, where it is a clause of one.
fn only_literal(c: &Con) -> Option<&(u32, IntSet)>
    ensures { IfSome result (λ l. c.now ≡ con.ClauseCon (l.now ∷ [])) }
{
    match c {
        Con::ClauseCon { clause } => match clause.clause().literals() {
            [l] => Some(l),
            _ => None,
        },
        _ => None,
    }
}

/// The constraint of this number.
fn con_at(maker: &Maker, k: usize) -> Option<&Con>
    ensures { IfSome result (λ c. Contains maker.now.cons c.now) }
{
    let cons = maker.cons();
    if k < cons.len() { Some(&cons[k]) } else { None }
}

/// The literal that constraint k is, where it is a clause of one.
fn literal_at(maker: &Maker, k: usize) -> Option<&(u32, IntSet)>
    ensures { IfSome result (λ l. IsStated maker.now l.now) }
{
    let c = con_at(maker, k)?;
    let l = only_literal(c)?;
    Some(l)
}

/// Counts one set more of a variable. Says whether they are as many as are joined; the next ones
/// are counted anew then.
fn is_full(counts: &mut Vec<u32>, x: usize) -> bool {
    if x >= counts.len() {
        return false;
    }
    let count = counts[x].saturating_add(1);
    counts[x] = if count < BLOCK { count } else { 0 };
    count >= BLOCK
}

/// Puts a set in place of another.
fn put(sets: &mut Vec<IntSet>, x: u32, set: IntSet)
    requires { x < length sets.old.items }
    ensures { sets.new.items ≡ slice_set sets.old.items x set }
{
    sets[x as usize] = set;
}

/// The set of a variable.
fn set_at(sets: &[IntSet], x: u32) -> &IntSet
    requires { x < length sets.now }
    ensures { result.now ≡ box_of sets.now x }
{
    &sets[x as usize]
}

/// What a literal's set has in common with those before.
fn common(maker: &Maker, sets: &[IntSet], l: &(u32, IntSet)) -> Result<IntSet, AllocError>
    requires there { l.now.0 < length sets.now }
    requires sets { AreStated maker.now sets.now }
    requires literal { IsStated maker.now l.now }
    ensures { IfOk result (λ s. IsStated maker.now (l.now.0, s)) }
{
    let set = set_at(sets, l.0).meet(&l.1)?;
    Ok(set)
}

/// The domain of a variable.
fn domain_of(maker: &Maker, x: u32) -> Result<IntSet, AllocError>
    requires { x < length maker.now.domains }
    ensures { IfOk result (λ s. IsStated maker.now (x, s)) }
{
    let set = set_at(maker.domains(), x).copy()?;
    Ok(set)
}

/// Takes in a literal.
fn join_literal(maker: &Maker, joining: &mut Joining, l: &(u32, IntSet)) -> Result<(), AllocError>
    requires joining { IsJoining maker.now joining.old }
    requires literal { IsStated maker.now l.now }
    ensures { OnOk result (IsJoining maker.now joining.new) }
{
    let x = l.0 as usize;
    if x >= joining.sets.len() || x >= maker.domains().len() {
        return Ok(());
    }
    let set = common(maker, joining.sets.as_slice(), l)?;
    if is_full(&mut joining.counts, x) {
        let domain = domain_of(maker, l.0)?;
        joining.blocks.push((l.0, set))?;
        put(&mut joining.sets, l.0, domain);
    } else {
        put(&mut joining.sets, l.0, set);
    }
    Ok(())
}

/// Takes in constraint k, where it is a clause of one literal.
fn join_at(maker: &Maker, joining: &mut Joining, k: usize) -> Result<(), AllocError>
    requires { IsJoining maker.now joining.old }
    ensures { OnOk result (IsJoining maker.now joining.new) }
{
    if let Some(l) = literal_at(maker, k) {
        join_literal(maker, joining, l)?;
    }
    Ok(())
}

/// No sets yet.
fn begin(maker: &Maker) -> Result<Joining, AllocError>
    ensures { IfOk result (λ j. IsJoining maker.now j) }
{
    let domains = maker.domains();
    let sets = copy_sets(maker.alloc(), domains)?;
    let mut counts = Vec::new(maker.alloc());
    counts.resize(domains.len(), 0)?;
    Ok(Joining {
        sets,
        counts,
        blocks: Vec::new(maker.alloc()),
    })
}

/// Variables with what sets that are stated of them have in common.
fn blocks_of(maker: &Maker) -> Result<Vec<(u32, IntSet)>, AllocError>
    ensures { IfOk result (λ ls. All (IsStated maker.now) ls.items) }
{
    let mut joining = begin(maker)?;
    for k in 0..maker.cons().len() {
        join_at(maker, &mut joining, k)?;
    }
    let Joining {
        sets: _,
        counts: _,
        blocks,
    } = joining;
    Ok(blocks)
}

/// States that the value of a variable is in a set.
fn state_block(maker: &mut Maker, l: &(u32, IntSet)) -> Result<(), AllocError>
    requires { IsStated maker.old l.now }
    ensures { OnOk result (Defines maker.old maker.new) }
{
    if l.0 as usize >= maker.domains().len() {
        return Ok(());
    }
    maker.ask(2)?;
    let set = l.1.copy()?;
    let test = Test::Holds(literal(maker.domains(), l.0, set));
    state(maker, &test)?;
    Ok(())
}

/// States that the values of these variables are in these sets.
fn state_blocks(maker: &mut Maker, blocks: &[(u32, IntSet)]) -> Result<(), AllocError>
    requires { All (IsStated maker.old) blocks.now }
    ensures { OnOk result (Defines maker.old maker.new) }
{
    for l in blocks {
        state_block(maker, l)?;
    }
    Ok(())
}

/// States what many sets that are stated of one variable have in common.
pub fn join_stated(maker: &mut Maker) -> Result<(), AllocError>
    ensures { OnOk result (Defines maker.old maker.new) }
{
    let blocks = blocks_of(maker)?;
    state_blocks(maker, blocks.as_slice())?;
    Ok(())
}
