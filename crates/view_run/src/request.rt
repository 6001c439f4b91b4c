//! What the words ask for.
ghost use Rattle.std.specs.Prelude.{◌≡◌, false, map, string_bytes, option_map};
ghost use Rattle.view_run.specs.Options.{is_option, is_wrong, are_options, are_choices, has_weights};
ghost use Rattle.view_run.specs.Words.{asked, plan_asked, is_choice, picture_asked, are_drawn, are_sizes, steps_asked, request_seen};

use crate::options::{lists_table, takes_name, wants_svg, wants_table};

/// What a plan is asked of.
#[derive(Clone, Copy)]
pub struct PlanRequest<'a> {
    /// The file of the former configuration.
    pub former: &'a str,
    /// The file of the new one.
    pub new: &'a str,
    /// The words behind: `--only`, `--weights` and `--table`.
    pub options: &'a [String],
}

/// What a picture is asked of.
#[derive(Clone, Copy)]
pub struct PictureRequest<'a> {
    /// The file of the configuration.
    pub config: &'a str,
    /// The attribute by which guests refer to holders.
    pub attribute: &'a str,
    /// The words behind: sizes, `--svg`, `--table` and `--failed`.
    pub options: &'a [String],
}

/// What steps are asked of.
#[derive(Clone, Copy)]
pub struct StepsRequest<'a> {
    /// The file of the former configuration.
    pub former: &'a str,
    /// The file of the new one.
    pub new: &'a str,
    /// The attribute by which guests refer to holders.
    pub attribute: &'a str,
    /// The words behind: sizes, `--failed` and `--by-way`.
    pub options: &'a [String],
}

/// A request, over the words that it is read from.
#[derive(Clone, Copy)]
pub enum Request<'a> {
    /// The plan from one configuration to another.
    Plan(PlanRequest<'a>),
    /// The picture of a configuration.
    Picture(PictureRequest<'a>),
    /// The steps from one configuration to another.
    Steps(StepsRequest<'a>),
}

/// Whether a word begins with a dash.
pub(crate) fn is_option(word: &str) -> bool
    ensures { result ≡ is_option word.now }
{
    word.as_bytes().starts_with(b"-")
}

/// Whether a word is no size, and none of the options of a picture that stand alone.
fn is_wrong(word: &str) -> bool
    ensures { result ≡ is_wrong word.now }
{
    is_option(word) && word != "--svg" && word != "--table"
}

/// Whether words are the options of a picture or of steps, of which one may name a stop.
fn are_options(words: &[String], may_stop: bool) -> bool
    ensures { result ≡ are_options may_stop false (map string_bytes words.now) }
{
    let mut may = may_stop;
    let mut waits = false;
    for word in words {
        if waits {
            waits = false;
        } else if word.as_str() == "--failed" {
            waits = true;
        } else if word.as_str() == "--by-way" {
            if !may {
                return false;
            }
            may = false;
            waits = true;
        } else if is_wrong(word) {
            return false;
        }
    }
    !waits
}

/// Whether words are the options of a plan.
fn are_choices(words: &[String]) -> bool
    ensures { result ≡ are_choices false (map string_bytes words.now) }
{
    let mut waits = false;
    for word in words {
        if waits {
            waits = false;
        } else if takes_name(word) {
            waits = true;
        } else if word.as_str() != "--table" {
            return false;
        }
    }
    !waits
}

/// Whether some of the options of a plan asks for weights.
fn has_weights(words: &[String]) -> bool
    ensures { result ≡ has_weights false (map string_bytes words.now) }
{
    let mut waits = false;
    for word in words {
        if waits {
            waits = false;
        } else if word.as_str() == "--weights" {
            return true;
        } else {
            waits = takes_name(word);
        }
    }
    false
}

/// Whether words are the options of a plan, and ask for a table or for weights, not for both.
fn is_choice(words: &[String]) -> bool
    ensures { result ≡ is_choice (map string_bytes words.now) }
{
    are_choices(words) && !(lists_table(words) && has_weights(words))
}

/// What the words behind `plan` ask for.
fn plan_asked(words: &[String]) -> Option<Request<'_>>
    ensures { option_map request_seen result ≡ plan_asked (map string_bytes words.now) }
{
    match words {
        [former, new, options @ ..] => {
            if !is_option(former) && !is_option(new) && is_choice(options) {
                Some(Request::Plan(PlanRequest {
                    former,
                    new,
                    options,
                }))
            } else {
                None
            }
        }
        [] => None,
        [_] => None,
    }
}

/// Whether words are the options of a picture, of SVG or of a table, not of both.
fn are_drawn(words: &[String]) -> bool
    ensures { result ≡ are_drawn (map string_bytes words.now) }
{
    are_options(words, false) && !(wants_svg(words) && wants_table(words))
}

/// What the words behind `picture` ask for.
fn picture_asked(words: &[String]) -> Option<Request<'_>>
    ensures { option_map request_seen result ≡ picture_asked (map string_bytes words.now) }
{
    match words {
        [config, attribute, options @ ..] => {
            if !is_option(config) && !is_option(attribute) && are_drawn(options) {
                Some(Request::Picture(PictureRequest {
                    config,
                    attribute,
                    options,
                }))
            } else {
                None
            }
        }
        [] => None,
        [_] => None,
    }
}

/// Whether words are the options of steps.
fn are_sizes(words: &[String]) -> bool
    ensures { result ≡ are_sizes (map string_bytes words.now) }
{
    are_options(words, true) && !wants_svg(words) && !wants_table(words)
}

/// What the words behind `steps` ask for.
fn steps_asked(words: &[String]) -> Option<Request<'_>>
    ensures { option_map request_seen result ≡ steps_asked (map string_bytes words.now) }
{
    match words {
        [former, new, attribute, options @ ..] => {
            if !is_option(former)
                && !is_option(new)
                && !is_option(attribute)
                && are_sizes(options)
            {
                Some(Request::Steps(StepsRequest {
                    former,
                    new,
                    attribute,
                    options,
                }))
            } else {
                None
            }
        }
        [] => None,
        [_] => None,
        [_, _] => None,
    }
}

/// What the words behind the program's name ask for, if they are a request.
pub fn request_of(words: &[String]) -> Option<Request<'_>>
    ensures { option_map request_seen result ≡ asked (map string_bytes words.now) }
{
    match words {
        [] => None,
        [command, more @ ..] => {
            if command.as_str() == "plan" {
                plan_asked(more)
            } else if command.as_str() == "picture" {
                picture_asked(more)
            } else if command.as_str() == "steps" {
                steps_asked(more)
            } else {
                None
            }
        }
    }
}
