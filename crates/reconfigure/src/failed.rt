//! The failed objects, by the words that name them.
ghost use Rattle.std.specs.Prelude.{◌≡◌, ◌<◌, ◌++◌, length, IfOk, OnOk};
ghost use Rattle.std.specs.List.{All};
ghost use Rattle.std.specs.Option.{option_to_list};
ghost use Rattle.object_alloc.specs.Paths.{object_named};
ghost use Rattle.object_alloc.specs.Walk.{objects as all_objects};
ghost use Rattle.reconfigure.specs.Failing.{objects_named, unknown_word};
ghost use Rattle.reconfigure.specs.Marking.{AreFailed};

use crate::marks::{marked_set, marks_of};
use conf_syntax::PathText;
use object_alloc::Objects;
use signed_clause::IntSet;
use std::alloc::{AllocError, Global};

/// Why there is no problem of a repair.
#[derive(Clone, Copy, Debug, PartialEq, Eq)]
pub enum FailedError {
    /// The word with this number, counted from 1, is the path of no object. It is the first such
    /// word.
    UnknownObject(u64),
    /// There was no memory.
    Memory,
}

impl From<AllocError> for FailedError {
    ghost use Rattle.std.specs.Prelude.{◌≡◌};
    ghost use Rattle.reconfigure.specs.declared.failed.FailedError.TheVariants.{Memory};

    ghost from_gives = { λ _ e. e ≡ Memory };

    fn from(_: AllocError) -> Self {
        FailedError::Memory
    }
}

/// Objects that failed, and all that is in one of them.
#[derive(Drop)]
pub(crate) struct Failed {
    /// The objects that failed.
    pub numbers: Vec<u32>,
    /// The numbers of the objects that are in one of these.
    pub inside: IntSet,
}

/// The number, counted from 1, of the first word that is no object's path.
pub fn unknown_word(objects: &Objects<'_>, words: &[PathText]) -> Option<u64>
    ensures { result ≡ unknown_word objects.now words.now }
{
    for i in 0..words.len() {
        if objects.object_at(words[i].as_bytes()).is_none() {
            return Some(i as u64 + 1);
        }
    }
    None
}

/// Adds the object whose path the word is, where it is one's.
fn push_object(
    objects: &Objects<'_>,
    numbers: &mut Vec<u32>,
    word: &PathText,
) -> Result<(), AllocError>
    ensures numbers { OnOk result (numbers.new.items
        ≡ numbers.old.items ++ option_to_list (object_named objects.now word.now)) }
    ensures there { OnOk result (All (λ n. n < length (all_objects objects.now)) numbers.old.items
        → All (λ n. n < length (all_objects objects.now)) numbers.new.items) }
{
    let Some(n) = objects.object_at(word.as_bytes()) else {
        return Ok(());
    };
    numbers.push(n)?;
    Ok(())
}

/// The objects whose paths the words are.
fn objects_named(
    alloc: Global,
    objects: &Objects<'_>,
    words: &[PathText],
) -> Result<Vec<u32>, AllocError>
    ensures numbers { IfOk result (λ ns. ns.items ≡ objects_named objects.now words.now) }
    ensures there { IfOk result (λ ns. All (λ n. n < length (all_objects objects.now)) ns.items) }
{
    let mut numbers = Vec::new(alloc);
    for word in words {
        push_object(objects, &mut numbers, word)?;
    }
    Ok(numbers)
}

/// The objects whose paths the words are, and what is in them.
pub(crate) fn failed_objects(
    alloc: Global,
    objects: &Objects<'_>,
    words: &[PathText],
) -> Result<Failed, AllocError>
    ensures numbers { IfOk result (λ f. f.numbers.items ≡ objects_named objects.now words.now) }
    ensures failed { IfOk result (λ f. AreFailed objects.now f) }
{
    let _count = objects.count();
    let numbers = objects_named(alloc, objects, words)?;
    let marks = marks_of(alloc, objects, &numbers)?;
    let inside = marked_set(alloc, &marks, 0)?;
    Ok(Failed { numbers, inside })
}
