//! The packed clauses, by number.
//!
//! Clauses are numbered from 0 in the order in which they were added; none is ever taken away or
//! changed. All bytes stand behind one another in one vector, and the place where a clause begins
//! in another. Clauses that are the same may begin at the same place.
ghost use Rattle.std.specs.Prelude.{◌≡◌, ◌<◌, ◌≤◌, ◌↔◌, ◌++◌, [], ◌∷◌, true, IsSome, IfSome, IfOk, OnOk, OnErr, length, take, drop};
ghost use Rattle.signed_clause.specs.Clauses.{IsClause};
ghost use Rattle.numbered_clauses.specs.Numbered.{clause_at};
ghost use Rattle.numbered_clauses.specs.Packed.{StandsAt, HasGrown};

use crate::packed_reading::read_clause;
use crate::packed_writing::clause_text;
use signed_clause::Clause;
use std::alloc::{AllocError, Global};
use std::marker::Model;

/// How many bytes the clauses may have. Those that stand in a log of half a gigabyte have three
/// quarters of that; only those that Bound lines make without saying them come to more, and then
/// memory is said to lack before it does.
const MOST_BYTES: usize = 1 << 30;

/// Packed clauses.
pub struct PackedClauses {
    bytes: Vec<u8>,
    places: Vec<u64>,
}

impl Drop for PackedClauses {
    fn drop(self) {
        let PackedClauses {
            bytes: _,
            places: _,
        } = self;
    }
}

impl Model for PackedClauses {
    ghost use Rattle.std.specs.Prelude.{ℕ, ℤ, List};
    ghost use Rattle.numbered_clauses.specs.Packed.{clauses_at, AreWhole};

    ghost Value = { List (List (ℕ × List (ℤ × ℤ))) };

    ghost view = { λ l. clauses_at l.bytes.items l.places.items };

    ghost invariant = { λ l. AreWhole l.bytes.items l.places.items };
}

impl PackedClauses {
    /// No clauses. It takes no memory until one is added.
    pub fn new(alloc: Global) -> Self
        ensures { result ≡ [] }
    {
        PackedClauses {
            bytes: Vec::new(alloc),
            places: Vec::new(alloc),
        }
    }

    /// How many clauses there are: the number that the next one gets.
    #[tactic(auto, using(crate::proofs::PackedLaws::count_of))]
    pub fn count(&self) -> u64
        ensures { result ≡ length self.now }
    {
        self.places.len() as u64
    }

    /// Adds a clause behind the others. Where the one of the number `former` is the same, both have
    /// their bytes in common, and all that the new one takes is eight bytes. After want of memory
    /// the clauses are as before; it is said as well where all would have more than a gigabyte.
    #[tactic(auto, using(crate::proofs::PackedLaws::still_whole, crate::proofs::PackedLaws::still_same, crate::proofs::PackedLaws::one_more_whole))]
    pub fn push(&mut self, alloc: Global, c: &Clause, former: Option<u64>) -> Result<(), AllocError>
        ensures ok { OnOk result (self.new ≡ self.old ++ c.now ∷ []) }
        ensures err { OnErr result (self.new ≡ self.old) }
    {
        let text = clause_text(alloc, c)?;
        let place = place_for(
            &mut self.bytes,
            self.places.as_slice(),
            former,
            text.as_slice(),
        )?;
        self.places.push(place)?;
        Ok(())
    }

    /// The clause of a number, made anew, where there is one.
    #[tactic(auto, using(crate::proofs::PackedLaws::count_of))]
    pub fn get(&self, alloc: Global, k: u64) -> Result<Option<Clause>, AllocError>
        ensures variant { IfOk result (λ o. IsSome o ↔ (k < length self.now)) }
        ensures clause { IfOk result (λ o. IfSome o (λ c. c ≡ clause_at self.now k)) }
        ensures form { IfOk result (λ o. IfSome o (λ c. IsClause c)) }
    {
        let places = self.places.as_slice();
        if k >= places.len() as u64 {
            return Ok(None);
        }
        let place = places[k as usize] as usize;
        let clause = read_clause(alloc, from_place(self.bytes.as_slice(), place))?;
        Ok(Some(clause))
    }
}

/// A place where the text stands: that of a former number, or else one behind all bytes, to which
/// it is added.
fn place_for(
    bytes: &mut Vec<u8>,
    places: &[u64],
    former: Option<u64>,
    text: &[u8],
) -> Result<u64, AllocError>
    ensures place { IfOk result (λ p. StandsAt bytes.new.items p text.now) }
    ensures grown { HasGrown bytes.old.items bytes.new.items }
{
    if let Some(place) = shared_place(bytes.as_slice(), places, former, text) {
        return Ok(place);
    }
    if text.len() > MOST_BYTES.saturating_sub(bytes.len()) {
        return Err(AllocError);
    }
    let place = bytes.len() as u64;
    bytes.extend_from_slice(text)?;
    Ok(place)
}

/// The place of a former number, where the text stands there.
fn shared_place(bytes: &[u8], places: &[u64], former: Option<u64>, text: &[u8]) -> Option<u64>
    ensures { IfSome result (λ p. StandsAt bytes.now p text.now) }
{
    let former = former?;
    if former >= places.len() as u64 {
        return None;
    }
    let place = places[former as usize];
    if stands_at(bytes, place, text) {
        Some(place)
    } else {
        None
    }
}

/// Whether the text stands at the place.
fn stands_at(bytes: &[u8], place: u64, text: &[u8]) -> bool
    ensures { result ≡ true → StandsAt bytes.now place text.now }
{
    if place > bytes.len() as u64 {
        return false;
    }
    begins_with(from_place(bytes, place as usize), text)
}

/// The bytes from a place on.
fn from_place(bytes: &[u8], place: usize) -> &[u8]
    requires { place ≤ length bytes.now }
    ensures { result.now ≡ drop place bytes.now }
{
    &bytes[place..]
}

/// Whether the bytes begin with the text.
fn begins_with(bytes: &[u8], text: &[u8]) -> bool
    ensures { result ≡ true → take (length text.now) bytes.now ≡ text.now }
{
    bytes.len() >= text.len() && &bytes[..text.len()] == text
}
