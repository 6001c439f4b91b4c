//! The words that stand as failed.
ghost use Rattle.std.specs.Prelude.{◌≡◌, ◌++◌, ◌∷◌, [], None, not, filter, IsSome, IfOk, OnOk};
ghost use Rattle.std.specs.List.{list_any};
ghost use Rattle.class_table.specs.Same.{same_name};
ghost use Rattle.object_alloc.specs.Paths.{object_named};
ghost use Rattle.reconfigure.specs.Failing.{unknown_word};
ghost use Rattle.conf_session.specs.Failed.{with_word, without_word, failed_behind};

use conf_events::Event;
use conf_syntax::PathText;
use std::alloc::{AllocError, Global};

/// Whether the two words are the same.
fn is_same(word: &PathText, other: &PathText) -> bool
    ensures { result ≡ same_name word.now other.now }
{
    word.as_bytes() == other.as_bytes()
}

/// Whether the word stands among these.
fn stands_among(word: &PathText, failed: &[PathText]) -> bool
    ensures { result ≡ list_any (same_name word.now) failed.now }
{
    for other in failed {
        if is_same(word, other) {
            return true;
        }
    }
    false
}

/// These words again.
pub fn copied_words(alloc: Global, words: &[PathText]) -> Result<Vec<PathText>, AllocError>
    ensures { IfOk result (λ copy. copy.items ≡ words.now) }
{
    let mut copy = Vec::new(alloc);
    for word in words {
        copy.push(PathText::of(alloc, word.as_bytes())?)?;
    }
    Ok(copy)
}

/// The words with one more, where it isn't one of them yet.
fn with_word(
    alloc: Global,
    word: &PathText,
    failed: Vec<PathText>,
) -> Result<Vec<PathText>, AllocError>
    ensures { IfOk result (λ words. words.items ≡ with_word word.now failed.items) }
{
    let mut words = failed;
    if !stands_among(word, &words) {
        words.push(PathText::of(alloc, word.as_bytes())?)?;
    }
    Ok(words)
}

/// Adds a word again, where it isn't this one.
fn push_other(
    alloc: Global,
    words: &mut Vec<PathText>,
    word: &PathText,
    other: &PathText,
) -> Result<(), AllocError>
    ensures { OnOk result (words.new.items
        ≡ words.old.items ++ filter (λ w. not (same_name word.now w)) (other.now ∷ [])) }
{
    if !is_same(word, other) {
        words.push(PathText::of(alloc, other.as_bytes())?)?;
    }
    Ok(())
}

/// The words without this one.
fn without_word(
    alloc: Global,
    word: &PathText,
    failed: &[PathText],
) -> Result<Vec<PathText>, AllocError>
    ensures { IfOk result (λ words. words.items ≡ without_word word.now failed.now) }
{
    let mut words = Vec::new(alloc);
    for other in failed {
        push_other(alloc, &mut words, word, other)?;
    }
    Ok(words)
}

/// The words that stand as failed behind an event. A word stands once at most.
pub(crate) fn failed_behind(
    alloc: Global,
    event: &Event,
    failed: Vec<PathText>,
) -> Result<Vec<PathText>, AllocError>
    ensures { IfOk result (λ words. words.items ≡ failed_behind event.now failed.items) }
{
    if event.fails {
        return with_word(alloc, &event.path, failed);
    }
    without_word(alloc, &event.path, &failed)
}
