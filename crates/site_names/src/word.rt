//! The word of a name.
ghost use Rattle.std.specs.Prelude.{◌≡◌, ◌++◌, map, bytes_eq, IfOk, OnOk};
ghost use Rattle.std.specs.List.{list_any};
ghost use Rattle.site_names.specs.Words.{word_byte, lead, begun, is_kept, word_of};

use std::alloc::{AllocError, Global};

/// What can't be a name in a model that is made of tables: the keywords of the language, and the
/// words that such a model uses for itself.
const KEPT: [&str; 35] = [
    "enum",
    "abstract",
    "class",
    "extends",
    "var",
    "as",
    "int",
    "bool",
    "ref",
    "where",
    "forall",
    "foreach",
    "exists",
    "sum",
    "count",
    "alldifferent",
    "pack",
    "in",
    "maximize",
    "minimize",
    "true",
    "false",
    "this",
    "and",
    "or",
    "not",
    "Host",
    "Service",
    "host",
    "most",
    "h",
    "s",
    "used",
    "moves",
    "moved",
];

/// A byte as it stands in a word.
fn word_byte(byte: u8) -> u8
    ensures { result ≡ word_byte byte }
{
    if byte.is_ascii_alphanumeric() {
        byte
    } else {
        b'_'
    }
}

/// Whether a word needs an underscore before it: it is empty, or begins with a digit.
fn needs_lead(name: &[u8]) -> bool
    ensures { result ≡ lead name.now }
{
    match name {
        [] => true,
        [first, ..] => first.is_ascii_digit(),
    }
}

/// Adds the bytes of a name, each as it stands in a word.
fn push_bytes(word: &mut Vec<u8>, name: &[u8]) -> Result<(), AllocError>
    ensures { OnOk result (word.new.items ≡ word.old.items ++ map word_byte name.now) }
{
    for byte in name {
        word.push(word_byte(*byte))?;
    }
    Ok(())
}

/// A name's word, but for the underscore that one behind a kept word has.
fn begun(alloc: Global, name: &[u8]) -> Result<Vec<u8>, AllocError>
    ensures { IfOk result (λ word. word.items ≡ begun name.now) }
{
    let mut word = Vec::new(alloc);
    if needs_lead(name) {
        word.push(b'_')?;
    }
    push_bytes(&mut word, name)?;
    Ok(word)
}

/// Whether a word is one of these.
fn is_one_of(word: &[u8], words: &[&str]) -> bool
    ensures { result ≡ list_any (bytes_eq word.now) (map (λ w. w.now) words.now) }
{
    for one in words {
        if word == one.as_bytes() {
            return true;
        }
    }
    false
}

/// Whether a word is a keyword, or one that the model uses for itself.
fn is_kept(word: &[u8]) -> bool
    ensures { result ≡ is_kept word.now }
{
    is_one_of(word, &KEPT)
}

/// The word of a name: each byte that is no letter or digit is an underscore, one stands before a
/// digit, and one behind a word that can't be a name.
pub fn word_of(alloc: Global, name: &[u8]) -> Result<Vec<u8>, AllocError>
    ensures { IfOk result (λ word. word.items ≡ word_of name.now) }
{
    let mut word = begun(alloc, name)?;
    if is_kept(&word) {
        word.push(b'_')?;
    }
    Ok(word)
}

/// The word of a name with an ending behind it.
pub fn word_with(alloc: Global, name: &[u8], ending: &[u8]) -> Result<Vec<u8>, AllocError>
    ensures { IfOk result (λ word. word.items ≡ word_of (name.now ++ ending.now)) }
{
    let mut whole = name.to_vec(alloc)?;
    whole.extend_from_slice(ending)?;
    word_of(alloc, &whole)
}
