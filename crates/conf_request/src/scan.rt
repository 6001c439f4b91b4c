//! What each word is, from left to right.
//!
//! `Role::of` says it of one word, where it is known what is expected. `given_in` reads the
//! options, and `PlainWords` hands out the plain words, one after the other. Neither takes memory.
ghost use Rattle.std.specs.Prelude.{◌≡◌, [], ◌∷◌, map, string_bytes, option_copied, option_map};
ghost use Rattle.std.specs.Prelude.{MatchOption};
ghost use Rattle.conf_request.specs.Words.{is_plain, name_part, value_part, option_role, role};
ghost use Rattle.conf_request.specs.Words.{behind, take_in, nothing, scan};
ghost use Rattle.conf_request.specs.Words as words;
ghost use Rattle.conf_request.specs.declared.scan.Expected.TheVariants as expected;
ghost use Rattle.conf_request.specs.Views.{given, plain, role_of};

use crate::options::{Given, OptionName, option_named};

/// What the next word is read as.
#[derive(Clone, Copy)]
pub enum Expected {
    /// A plain word, an option or `--`.
    Any,
    /// The value of this option.
    Value(OptionName),
    /// A plain word, whatever it is: `--` stands before it.
    Plain,
}

/// What a word is.
#[derive(Clone, Copy)]
pub enum Role<'a> {
    /// A plain word.
    Plain,
    /// `--`.
    Closing,
    /// An option whose value is the next word.
    Opening(OptionName),
    /// An option and its value, or the value of the option before.
    Setting(OptionName, &'a str),
}

/// Whether a word is no option: it doesn't begin with `-`, or is `-` alone.
fn is_plain(word: &str) -> bool
    ensures { result ≡ is_plain word.now }
{
    !word.as_bytes().starts_with(b"-") || word == "-"
}

/// A word up to its first `=`, and what stands behind that.
fn parts(word: &str) -> (&str, Option<&str>)
    ensures name { result.0.now ≡ name_part word.now }
    ensures value { option_copied result.1 ≡ value_part word.now }
{
    match word.split_once('=') {
        Some((name, value)) => (name, Some(value)),
        None => (word, None),
    }
}

/// The role of an option with what stands behind its `=`, which isn't empty.
fn option_role<'a>(option: OptionName, value: Option<&'a str>) -> Option<Role<'a>>
    ensures { option_map role_of result ≡ option_role option (option_copied value.entry) }
{
    match value {
        None => Some(Role::Opening(option)),
        Some(value) if value.is_empty() => None,
        Some(value) => Some(Role::Setting(option, value)),
    }
}

impl<'a> Role<'a> {
    /// The role of a word where this is expected.
    fn of(expected: Expected, word: &'a str) -> Option<Role<'a>>
        ensures { option_map role_of result ≡ role expected word.now }
    {
        match expected {
            Expected::Plain => Some(Role::Plain),
            Expected::Value(option) if is_plain(word) => Some(Role::Setting(option, word)),
            Expected::Value(_) => None,
            Expected::Any if is_plain(word) => Some(Role::Plain),
            Expected::Any if word == "--" => Some(Role::Closing),
            Expected::Any => {
                let (name, value) = parts(word);
                option_role(option_named(name)?, value)
            }
        }
    }

    /// What is expected behind a word of this role.
    fn behind(self, expected: Expected) -> Expected
        ensures { result ≡ behind expected (role_of self.entry) }
    {
        match self {
            Role::Plain => expected,
            Role::Closing => Expected::Plain,
            Role::Opening(option) => Expected::Value(option),
            Role::Setting(_, _) => Expected::Any,
        }
    }

    /// The values of the options, with the one that this is.
    fn take_in(self, values: Given<'a>) -> Option<Given<'a>>
        ensures { option_map given result ≡ take_in (role_of self.entry) (given values.entry) }
    {
        match self {
            Role::Plain | Role::Closing | Role::Opening(_) => Some(values),
            Role::Setting(option, value) => values.with(option, value),
        }
    }
}

/// How far the options are read.
#[derive(Clone, Copy)]
pub struct Scan<'a> {
    /// What the next word is read as.
    pub expected: Expected,
    /// The values so far.
    pub values: Given<'a>,
    /// The words that are left.
    pub rest: &'a [String],
}

/// The values of the options among these words, if each word has a role and no option stands twice
/// or lacks its value.
pub fn given_in(words: &[String]) -> Option<Given<'_>>
    ensures { option_map given result ≡ scan expected.Any nothing (map string_bytes words.now) }
{
    let mut scan = Scan {
        expected: Expected::Any,
        values: Given::nothing(),
        rest: words,
    };
    while let [word, rest @ ..] = scan.rest {
        let role = Role::of(scan.expected, word.as_str())?;
        scan = Scan {
            expected: role.behind(scan.expected),
            values: role.take_in(scan.values)?,
            rest,
        };
    }
    match scan.expected {
        Expected::Any | Expected::Plain => Some(scan.values),
        Expected::Value(_) => None,
    }
}

/// The plain words among those that are left.
#[derive(Clone, Copy)]
pub struct PlainWords<'a> {
    /// What the first of them is read as.
    pub expected: Expected,
    /// The words that are left.
    pub rest: &'a [String],
}

impl<'a> PlainWords<'a> {
    /// The plain words among these.
    pub fn of(rest: &'a [String]) -> Self
        ensures { plain result ≡ words.plain_words expected.Any (map string_bytes rest.now) }
    {
        PlainWords {
            expected: Expected::Any,
            rest,
        }
    }

    /// The first plain word, and those behind it.
    pub fn split_first(self) -> Option<(&'a str, PlainWords<'a>)>
        ensures { MatchOption result (plain self.entry ≡ [])
            (λ x. plain self.entry ≡ x.0.now ∷ plain x.1) }
    {
        let mut expected = self.expected;
        let mut rest = self.rest;
        while let [word, more @ ..] = rest {
            let role = Role::of(expected, word.as_str())?;
            expected = role.behind(expected);
            rest = more;
            if let Role::Plain = role {
                return Some((word.as_str(), PlainWords { expected, rest }));
            }
        }
        None
    }
}
