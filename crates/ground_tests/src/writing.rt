//! Texts of models that rules write, as numbers that look random pick them.
use crate::rules::{Place, Rule, fits, is_named};
use std::alloc::{AllocError, Global};
use test_problems::Random;

/// How many rules fit.
fn count_fitting(rules: &[Rule<'_>], name: &str, row: &str, place: Place) -> u32 {
    let mut count = 0_u32;
    for rule in rules {
        if fits(rule, name, row, place) {
            count = count.saturating_add(1);
        }
    }
    count
}

/// The rule that fits with so many before it that fit; None where there is none.
fn nth_fitting<'r, 'a>(
    rules: &'r [Rule<'a>],
    name: &str,
    row: &str,
    place: Place,
    n: u32,
) -> Option<&'r Rule<'a>> {
    let mut before = 0_u32;
    for rule in rules {
        if fits(rule, name, row, place) {
            if before == n {
                return Some(rule);
            }
            before = before.saturating_add(1);
        }
    }
    None
}

/// One of the rules that fit, by a number that looks random; None where none fits.
fn one_fitting<'r, 'a>(
    random: &mut Random,
    rules: &'r [Rule<'a>],
    name: &str,
    row: &str,
    place: Place,
) -> Option<&'r Rule<'a>> {
    let count = count_fitting(rules, name, row, place);
    if count == 0 {
        return None;
    }
    nth_fitting(rules, name, row, place, random.below(count))
}

/// How deep within rules one is used that may have so many more within it.
fn place_of(depth: u32) -> Place {
    match depth {
        0 | 1 => Place::End,
        2 | 3 | 4 => Place::Inside,
        _ => Place::Top,
    }
}

/// A rule that fits, by a number that looks random; None where none fits.
fn picked<'r, 'a>(
    random: &mut Random,
    rules: &'r [Rule<'a>],
    name: &str,
    row: &str,
    depth: u32,
) -> Option<&'r Rule<'a>> {
    match one_fitting(random, rules, name, row, place_of(depth)) {
        Some(rule) => Some(rule),
        None => one_fitting(random, rules, name, row, Place::Inside),
    }
}

/// What a word names, and the letters that stand around it.
fn named<'w>(alloc: Global, word: &'w str, row: &str) -> Result<(&'w str, String), AllocError> {
    let (name, letters) = word.split_once('+').unwrap_or((word, ""));
    let mut inner = String::from_str(alloc, row)?;
    inner.push_str(letters)?;
    Ok((name, inner))
}

/// Writes what a word names, or the word itself. Rules within rules are at most so many.
pub(crate) fn write(
    random: &mut Random,
    rules: &[Rule<'_>],
    word: &str,
    row: &str,
    depth: u32,
    text: &mut String,
) -> Result<(), AllocError> {
    if !is_named(word) {
        text.push_str(word)?;
        return text.push(' ');
    }
    let alloc = *text.allocator();
    let (name, inner) = named(alloc, word, row)?;
    let Some(rule) = picked(random, rules, name, &inner, depth) else {
        return text.push('?');
    };
    for part in &rule.words {
        if depth > 0 {
            write(random, rules, part, &inner, depth - 1, text)?;
        }
    }
    Ok(())
}
