//! Variables of which each two are a pair. Nothing rests on which are found: that each two differ
//! is looked at where it is stated.
ghost use Rattle.std.specs.Prelude.{◌≡◌, true, Contains};

use std::alloc::{AllocError, Global};

/// The most variables of a clique. What it costs to look at a constraint that so many differ grows
/// with the third power of their number.
const MOST_DIFFERENT: usize = 64;

/// So many pairs are looked up for each one that there is.
const LOOKS: usize = 64;

/// Where the search for cliques stands.
#[derive(Drop)]
struct Search {
    /// Of each pair, whether it is in a clique.
    taken: Vec<bool>,
    /// How many pairs may still be looked up.
    left: usize,
}

/// Where the pair stands, or would stand.
fn place_of(pairs: &[(u32, u32)], u: u32, v: u32) -> usize {
    pairs.partition_point(|p| p.0 < u || p.0 == u && p.1 < v)
}

/// Whether the two are a pair.
pub(crate) fn is_pair(pairs: &[(u32, u32)], u: u32, v: u32) -> bool
    ensures { result ≡ true → Contains pairs.now (u, v) }
{
    let i = place_of(pairs, u, v);
    i < pairs.len() && pairs[i] == (u, v)
}

/// Whether each of the variables is a pair with this one, which is greater.
fn are_pairs(pairs: &[(u32, u32)], vars: &[u32], v: u32) -> bool {
    for u in vars {
        if !is_pair(pairs, *u, v) {
            return false;
        }
    }
    true
}

/// Whether the pair there is in no clique.
fn is_free(search: &Search, i: usize) -> bool {
    i < search.taken.len() && !search.taken[i]
}

/// The variables of a clique that begins with the pair there: greedily those that have a free pair
/// with its first variable.
fn grown(
    alloc: Global,
    pairs: &[(u32, u32)],
    search: &mut Search,
    at: usize,
) -> Result<Vec<u32>, AllocError> {
    let mut vars = Vec::new(alloc);
    if at >= pairs.len() {
        return Ok(vars);
    }
    let first = pairs[at].0;
    vars.push(first)?;
    for i in at..pairs.len() {
        if pairs[i].0 != first || vars.len() >= MOST_DIFFERENT {
            return Ok(vars);
        }
        search.left = search.left.saturating_sub(vars.len());
        if is_free(search, i) && are_pairs(pairs, vars.as_slice(), pairs[i].1) {
            vars.push(pairs[i].1)?;
        }
    }
    Ok(vars)
}

/// How many pairs of the variables are free.
fn free_pairs(pairs: &[(u32, u32)], search: &Search, vars: &[u32]) -> usize {
    let mut count = 0usize;
    for i in 0..vars.len() {
        for v in &vars[i + 1..] {
            if is_free(search, place_of(pairs, vars[i], *v)) {
                count = count.saturating_add(1);
            }
        }
    }
    count
}

/// Takes the pairs of a variable with others.
fn take_pairs(pairs: &[(u32, u32)], search: &mut Search, u: u32, others: &[u32]) {
    for v in others {
        let i = place_of(pairs, u, *v);
        if i < search.taken.len() {
            search.taken[i] = true;
        }
    }
}

/// Takes all pairs of the variables.
fn take_all(pairs: &[(u32, u32)], search: &mut Search, vars: &[u32]) {
    for i in 0..vars.len() {
        take_pairs(pairs, search, vars[i], &vars[i + 1..]);
    }
}

/// Whether the clique says more than its pairs: it has three variables, and half of its pairs at
/// least are in none so far. If so it takes all of them, and else those of its first variable.
fn accept(pairs: &[(u32, u32)], search: &mut Search, vars: &[u32]) -> bool {
    let all = vars.len().saturating_mul(vars.len().saturating_sub(1)) / 2;
    if vars.len() >= 3 && free_pairs(pairs, search, vars) >= all / 2 {
        take_all(pairs, search, vars);
        return true;
    }
    if let [first, rest @ ..] = vars {
        take_pairs(pairs, search, *first, rest);
    }
    false
}

/// Adds the clique that begins with the pair there, where that is in none so far.
fn push_clique(
    alloc: Global,
    pairs: &[(u32, u32)],
    search: &mut Search,
    at: usize,
    out: &mut Vec<Vec<u32>>,
) -> Result<(), AllocError> {
    if search.left == 0 || !is_free(search, at) {
        return Ok(());
    }
    let vars = grown(alloc, pairs, search, at)?;
    if accept(pairs, search, vars.as_slice()) {
        out.push(vars)?;
    }
    Ok(())
}

/// Cliques of pairs that are in order, the smaller variable first. Together they have most pairs.
pub(crate) fn cliques_of(alloc: Global, pairs: &[(u32, u32)]) -> Result<Vec<Vec<u32>>, AllocError> {
    let mut taken = Vec::new(alloc);
    taken.resize(pairs.len(), false)?;
    let mut search = Search {
        taken,
        left: pairs.len().saturating_mul(LOOKS),
    };
    let mut out = Vec::new(alloc);
    for at in 0..pairs.len() {
        push_clique(alloc, pairs, &mut search, at, &mut out)?;
    }
    Ok(out)
}
