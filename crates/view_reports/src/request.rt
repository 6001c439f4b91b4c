//! What the words ask for.
ghost use Rattle.std.specs.Prelude.{◌≡◌, map, string_bytes, option_map, IfOk};
ghost use Rattle.view_picture.specs.PictureViews.{size_seen};
ghost use Rattle.view_reports.specs.Words.{is_option, are_plain, size_of, asked, breaks_asked, page_asked, is_report, request_seen};

use std::alloc::{AllocError, Global};
use view_picture::Size;

/// What breaks are asked of.
#[derive(Clone, Copy)]
pub struct BreaksRequest<'a> {
    /// The file of the model.
    pub model: &'a str,
    /// The file of the configuration.
    pub config: &'a str,
}

/// What a page is asked of.
#[derive(Clone, Copy)]
pub struct PageRequest<'a> {
    /// The file of the former configuration.
    pub former: &'a str,
    /// The file of what a session printed.
    pub answers: &'a str,
    /// The attribute by which guests refer to holders.
    pub attribute: &'a str,
    /// The sizes.
    pub sizes: &'a [String],
}

/// A request, over the words that it is read from.
#[derive(Clone, Copy)]
pub enum Request<'a> {
    /// What a configuration breaks of a model.
    Breaks(BreaksRequest<'a>),
    /// The page of a session.
    Page(PageRequest<'a>),
}

/// Whether a word begins with a dash.
fn is_option(word: &str) -> bool
    ensures { result ≡ is_option word.now }
{
    word.as_bytes().starts_with(b"-")
}

/// Whether no word begins with a dash.
fn are_plain(words: &[String]) -> bool
    ensures { result ≡ are_plain (map string_bytes words.now) }
{
    for word in words {
        if is_option(word) {
            return false;
        }
    }
    true
}

/// The size that a word names, and under which name a holder has its capacity.
fn size_of(word: &str) -> Size<'_>
    ensures { size_seen result ≡ size_of word.now }
{
    match word.split_once('=') {
        Some((name, capacity)) => Size { name, capacity },
        None => Size {
            name: word,
            capacity: word,
        },
    }
}

/// The sizes that words name.
pub(crate) fn sizes_of(alloc: Global, words: &[String]) -> Result<Vec<Size<'_>>, AllocError>
    ensures { IfOk result (λ sizes. map size_seen sizes.items
        ≡ map size_of (map string_bytes words.now)) }
{
    let mut sizes = Vec::new(alloc);
    for word in words {
        sizes.push(size_of(word))?;
    }
    Ok(sizes)
}

/// What the words behind `breaks` ask for.
fn breaks_asked(words: &[String]) -> Option<Request<'_>>
    ensures { option_map request_seen result ≡ breaks_asked (map string_bytes words.now) }
{
    match words {
        [model, config] => {
            if !is_option(model) && !is_option(config) {
                Some(Request::Breaks(BreaksRequest { model, config }))
            } else {
                None
            }
        }
        [] => None,
        [_] => None,
        [_, _, _, ..] => None,
    }
}

/// What the words behind `page` ask for.
fn page_asked(words: &[String]) -> Option<Request<'_>>
    ensures { option_map request_seen result ≡ page_asked (map string_bytes words.now) }
{
    match words {
        [former, answers, attribute, sizes @ ..] => {
            if !is_option(former)
                && !is_option(answers)
                && !is_option(attribute)
                && are_plain(sizes)
            {
                Some(Request::Page(PageRequest {
                    former,
                    answers,
                    attribute,
                    sizes,
                }))
            } else {
                None
            }
        }
        [] => None,
        [_] => None,
        [_, _] => None,
    }
}

/// What the words behind the program's name ask for, if they are a request.
pub fn request_of(words: &[String]) -> Option<Request<'_>>
    ensures { option_map request_seen result ≡ asked (map string_bytes words.now) }
{
    match words {
        [] => None,
        [command, more @ ..] => {
            if command.as_str() == "breaks" {
                breaks_asked(more)
            } else if command.as_str() == "page" {
                page_asked(more)
            } else {
                None
            }
        }
    }
}

/// Whether the first word is that of breaks or of a page.
pub fn is_report(words: &[String]) -> bool
    ensures { result ≡ is_report (map string_bytes words.now) }
{
    match words {
        [] => false,
        [command, ..] => command.as_str() == "breaks" || command.as_str() == "page",
    }
}
