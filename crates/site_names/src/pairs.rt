//! The first of many words that an earlier one is the same as.
ghost use Rattle.std.specs.Prelude.{◌≡◌, [], IfOk, map, option_map};
ghost use Rattle.site_names.specs.Meeting.{again, meeting, pair_seen};

use crate::names::Names;
use std::alloc::{AllocError, Global};

/// The places of two words that are the same.
#[derive(Clone, Copy, Debug, PartialEq, Eq)]
pub struct Pair {
    /// That of the first.
    pub first: usize,
    /// That of the second, which is the least place of such a second word.
    pub second: usize,
}

/// The place of a word among the words before it, with its own.
fn again(alloc: Global, seen: &Names, word: &[u8]) -> Result<Option<Pair>, AllocError>
    ensures { IfOk result (λ pair. option_map pair_seen pair ≡ again seen.now word.now) }
{
    let second = seen.len();
    match seen.place_of(alloc, word)? {
        Some(first) => Ok(Some(Pair { first, second })),
        None => Ok(None),
    }
}

/// The first word that an earlier one is the same as, with that one; none where all differ.
pub fn meeting(alloc: Global, words: &[Vec<u8>]) -> Result<Option<Pair>, AllocError>
    ensures { IfOk result (λ pair. option_map pair_seen pair
        ≡ meeting [] (map (λ w. w.items) words.now)) }
{
    let mut seen = Names::new(alloc);
    for word in words {
        if !seen.insert(alloc, word)? {
            return again(alloc, &seen, word);
        }
    }
    Ok(None)
}
