//! The options of a picture, those of steps, and those of a plan.
ghost use Rattle.std.specs.Prelude.{◌≡◌, ◌++◌, ◌∷◌, [], if◌then◌else◌, false, map, option_map, string_bytes, IfOk, OnOk};
ghost use Rattle.view_picture.specs.PictureViews.{size_seen};
ghost use Rattle.view_run.specs.Options.{size_of, sizes_of, takes_path, failed_of, stop_of, wants_svg, wants_table, takes_name, names_behind, only_of, weights_of, lists_table};

use crate::request::is_option;
use std::alloc::{AllocError, Global};
use view_picture::Size;

/// The size that a word names, and under which name a holder has its capacity.
fn size_of(word: &str) -> Size<'_>
    ensures { size_seen result ≡ size_of word.now }
{
    match word.split_once('=') {
        Some((name, capacity)) => Size { name, capacity },
        None => Size {
            name: word,
            capacity: word,
        },
    }
}

/// Whether a word has a path behind it, among the options of a picture or of steps.
fn takes_path(word: &str) -> bool
    ensures { result ≡ takes_path word.now }
{
    word == "--failed" || word == "--by-way"
}

/// The sizes among the options.
pub(crate) fn sizes_of(alloc: Global, words: &[String]) -> Result<Vec<Size<'_>>, AllocError>
    ensures { IfOk result (λ sizes. map size_seen sizes.items
        ≡ sizes_of false (map string_bytes words.now)) }
{
    let mut sizes = Vec::new(alloc);
    let mut waits = false;
    for word in words {
        if waits {
            waits = false;
        } else if takes_path(word) {
            waits = true;
        } else if !is_option(word) {
            sizes.push(size_of(word))?;
        }
    }
    Ok(sizes)
}

/// The paths of what failed, among the options.
pub(crate) fn failed_of(alloc: Global, words: &[String]) -> Result<Vec<&str>, AllocError>
    ensures { IfOk result (λ failed. map (λ w. w.now) failed.items
        ≡ failed_of (map string_bytes words.now)) }
{
    let mut failed = Vec::new(alloc);
    let mut waits = false;
    let mut wanted = false;
    for word in words {
        if waits {
            take_name(&mut failed, word.as_str(), wanted)?;
            waits = false;
            wanted = false;
        } else {
            waits = takes_path(word);
            wanted = word.as_str() == "--failed";
        }
    }
    Ok(failed)
}

/// The path of the stop, among the options.
pub(crate) fn stop_of(words: &[String]) -> Option<&str>
    ensures { option_map (λ w. w.now) result ≡ stop_of (map string_bytes words.now) }
{
    let mut waits = false;
    let mut wanted = false;
    for word in words {
        if waits {
            if wanted {
                return Some(word.as_str());
            }
            waits = false;
        } else {
            waits = takes_path(word);
            wanted = word.as_str() == "--by-way";
        }
    }
    None
}

/// Whether SVG is asked for, among the options.
pub(crate) fn wants_svg(words: &[String]) -> bool
    ensures { result ≡ wants_svg false (map string_bytes words.now) }
{
    let mut waits = false;
    for word in words {
        if waits {
            waits = false;
        } else if word.as_str() == "--svg" {
            return true;
        } else {
            waits = takes_path(word);
        }
    }
    false
}

/// Whether a table is asked for, among the options of a picture.
pub(crate) fn wants_table(words: &[String]) -> bool
    ensures { result ≡ wants_table false (map string_bytes words.now) }
{
    let mut waits = false;
    for word in words {
        if waits {
            waits = false;
        } else if word.as_str() == "--table" {
            return true;
        } else {
            waits = takes_path(word);
        }
    }
    false
}

/// Whether a word has a name behind it, among the options of a plan.
pub(crate) fn takes_name(word: &str) -> bool
    ensures { result ≡ takes_name word.now }
{
    word == "--only" || word == "--weights"
}

/// Takes a name where it is wanted.
fn take_name<'a>(names: &mut Vec<&'a str>, name: &'a str, wanted: bool) -> Result<(), AllocError>
    ensures { OnOk result (map (λ w. w.now) names.new.items ≡ map (λ w. w.now) names.old.items
        ++ (if wanted then name.now ∷ [] else [])) }
{
    if wanted {
        names.push(name)?;
    }
    Ok(())
}

/// The names behind this option of a plan.
fn names_behind<'a>(
    alloc: Global,
    words: &'a [String],
    option: &str,
) -> Result<Vec<&'a str>, AllocError>
    ensures { IfOk result (λ names. map (λ w. w.now) names.items
        ≡ names_behind option.now false false (map string_bytes words.now)) }
{
    let mut names = Vec::new(alloc);
    let mut waits = false;
    let mut wanted = false;
    for word in words {
        if waits {
            take_name(&mut names, word.as_str(), wanted)?;
            waits = false;
            wanted = false;
        } else {
            waits = takes_name(word);
            wanted = word.as_str() == option;
        }
    }
    Ok(names)
}

/// The names whose leaves alone are asked for; none where all are.
pub(crate) fn only_of(alloc: Global, words: &[String]) -> Result<Vec<&str>, AllocError>
    ensures { IfOk result (λ names. map (λ w. w.now) names.items
        ≡ only_of (map string_bytes words.now)) }
{
    names_behind(alloc, words, "--only")
}

/// The names by which weights are asked for.
pub(crate) fn weights_of(alloc: Global, words: &[String]) -> Result<Vec<&str>, AllocError>
    ensures { IfOk result (λ names. map (λ w. w.now) names.items
        ≡ weights_of (map string_bytes words.now)) }
{
    names_behind(alloc, words, "--weights")
}

/// Whether a table is asked for, among the options of a plan.
pub(crate) fn lists_table(words: &[String]) -> bool
    ensures { result ≡ lists_table false (map string_bytes words.now) }
{
    let mut waits = false;
    for word in words {
        if waits {
            waits = false;
        } else if word.as_str() == "--table" {
            return true;
        } else {
            waits = takes_name(word);
        }
    }
    false
}
