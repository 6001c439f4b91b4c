//! Requests over borrowed words.
//!
//! `draft_of` reads words without memory: it asks of each command which options and how many plain
//! words it may have. `Draft::build` copies the words into the request.
ghost use Rattle.std.specs.Prelude.{◌≡◌, true, map, string_bytes, option_map, option_copied, IfOk};
ghost use Rattle.conf_request.specs.Words.{asked, has_none, is_read, parsed};
ghost use Rattle.conf_request.specs.Words.{Given as GivenBytes};
ghost use Rattle.conf_request.specs.declared.command.Command.TheVariants as command;
ghost use Rattle.conf_request.specs.Views.{given, plain, request_of};

use crate::command::{Command, command_named};
use crate::file_name::FileName;
use crate::numbers::number_within;
use crate::options::{Given, OrderName};
use crate::paths::Paths;
use crate::request::Request;
use crate::scan::{PlainWords, given_in};
use conf_syntax::PathText;
use std::alloc::{AllocError, Global};

/// A request, over the words that it is read from.
#[derive(Clone, Copy)]
pub enum Draft<'a> {
    /// `solve`: the model, the budget, the log and the order.
    Solve(&'a str, u32, Option<&'a str>, OrderName),
    /// `reconfigure`: the model, the former configuration, what failed, the budget, the log and the
    /// order.
    Reconfigure(&'a str, &'a str, PlainWords<'a>, u32, Option<&'a str>, OrderName),
    /// `check` without a former configuration: the model and the log.
    Check(&'a str, &'a str),
    /// `check` with one: the model, the log, the former configuration and what failed.
    CheckFormer(&'a str, &'a str, &'a str, PlainWords<'a>),
    /// `verify`: the model and the configuration.
    Verify(&'a str, &'a str),
    /// `gen`: the number.
    Gen(u32),
    /// `session`: the model, the former configuration, the events, the budget and the order.
    Session(&'a str, &'a str, &'a str, u32, OrderName),
    /// `core`: the model, the budget and the order.
    Core(&'a str, u32, OrderName),
}

/// Whether the log's file is one of the first two words, which are the files that are read. Two
/// names of one file aren't told.
fn is_read(words: PlainWords<'_>, log: Option<&str>) -> bool
    ensures { result ≡ is_read (option_copied log.entry) (plain words.entry) }
{
    let Some(log) = log else { return false };
    match words.split_first() {
        None => false,
        Some((first, more)) => match more.split_first() {
            None => log == first,
            Some((second, _)) => log == first || log == second,
        },
    }
}

/// What `solve` asks for.
fn solve<'a>(words: PlainWords<'a>, options: &Given<'a>) -> Option<Draft<'a>>
    ensures { option_map request_of result
        ≡ asked command.Solve (plain words.entry) (given options.now) }
{
    if is_read(words, options.log) {
        return None;
    }
    let (model, more) = words.split_first()?;
    match more.split_first() {
        Some(_) => None,
        None => Some(Draft::Solve(
            model,
            options.budget()?,
            options.log,
            options.order(OrderName::First)?,
        )),
    }
}

/// What `reconfigure` asks for.
fn reconfigure<'a>(words: PlainWords<'a>, options: &Given<'a>) -> Option<Draft<'a>>
    ensures { option_map request_of result
        ≡ asked command.Reconfigure (plain words.entry) (given options.now) }
{
    if is_read(words, options.log) {
        return None;
    }
    let (model, more) = words.split_first()?;
    let (former, failed) = more.split_first()?;
    let budget = options.budget()?;
    let order = options.order(OrderName::Former)?;
    Some(Draft::Reconfigure(model, former, failed, budget, options.log, order))
}

/// What `check` asks for.
fn check(words: PlainWords<'_>) -> Option<Draft<'_>>
    ensures { (g : GivenBytes) → has_none g ≡ true
        → option_map request_of result ≡ asked command.Check (plain words.entry) g }
{
    let (model, more) = words.split_first()?;
    let (log, more) = more.split_first()?;
    match more.split_first() {
        Some((former, failed)) => Some(Draft::CheckFormer(model, log, former, failed)),
        None => Some(Draft::Check(model, log)),
    }
}

/// What `verify` asks for.
fn verify(words: PlainWords<'_>) -> Option<Draft<'_>>
    ensures { (g : GivenBytes) → has_none g ≡ true
        → option_map request_of result ≡ asked command.Verify (plain words.entry) g }
{
    let (model, more) = words.split_first()?;
    let (config, more) = more.split_first()?;
    match more.split_first() {
        Some(_) => None,
        None => Some(Draft::Verify(model, config)),
    }
}

/// What `gen` asks for.
fn generate(words: PlainWords<'_>) -> Option<Draft<'_>>
    ensures { (g : GivenBytes) → has_none g ≡ true
        → option_map request_of result ≡ asked command.Gen (plain words.entry) g }
{
    let (word, more) = words.split_first()?;
    match more.split_first() {
        Some(_) => None,
        None => Some(Draft::Gen(number_within(3, 1, 100, word)?)),
    }
}

/// What `session` asks for.
fn session<'a>(words: PlainWords<'a>, options: &Given<'a>) -> Option<Draft<'a>>
    ensures { option_map request_of result
        ≡ asked command.Session (plain words.entry) (given options.now) }
{
    if options.log.is_some() {
        return None;
    }
    let (model, more) = words.split_first()?;
    let (former, more) = more.split_first()?;
    let (events, more) = more.split_first()?;
    match more.split_first() {
        Some(_) => None,
        None => Some(Draft::Session(
            model,
            former,
            events,
            options.budget()?,
            options.order(OrderName::Former)?,
        )),
    }
}

/// What `core` asks for.
fn core<'a>(words: PlainWords<'a>, options: &Given<'a>) -> Option<Draft<'a>>
    ensures { option_map request_of result
        ≡ asked command.Core (plain words.entry) (given options.now) }
{
    if options.log.is_some() {
        return None;
    }
    let (model, more) = words.split_first()?;
    match more.split_first() {
        Some(_) => None,
        None => Some(Draft::Core(model, options.budget()?, options.order(OrderName::First)?)),
    }
}

/// What a command asks for with these words and options.
fn drafted<'a>(command: Command, words: PlainWords<'a>, options: &Given<'a>) -> Option<Draft<'a>>
    ensures { option_map request_of result
        ≡ asked command (plain words.entry) (given options.now) }
{
    match command {
        Command::Solve => solve(words, options),
        Command::Reconfigure => reconfigure(words, options),
        Command::Check if options.is_none() => check(words),
        Command::Verify if options.is_none() => verify(words),
        Command::Gen if options.is_none() => generate(words),
        Command::Session => session(words, options),
        Command::Core => core(words, options),
        _ => None,
    }
}

/// What the words ask for, if they are a request.
pub fn draft_of(words: &[String]) -> Option<Draft<'_>>
    ensures { option_map request_of result ≡ parsed (map string_bytes words.now) }
{
    match words {
        [first, behind @ ..] => {
            let command = command_named(first.as_str())?;
            let options = given_in(behind)?;
            drafted(command, PlainWords::of(behind), &options)
        }
        [] => None,
    }
}

/// The name of a file that a word is.
fn file_name(alloc: Global, word: &str) -> Result<FileName, AllocError>
    ensures { IfOk result (λ name. name ≡ word.now) }
{
    Ok(FileName::of(String::from_str(alloc, word)?))
}

/// The name of a file that a word is, where there is one.
fn log_name(alloc: Global, word: Option<&str>) -> Result<Option<FileName>, AllocError>
    ensures { IfOk result (λ name. name ≡ option_copied word.entry) }
{
    match word {
        Some(word) => Ok(Some(file_name(alloc, word)?)),
        None => Ok(None),
    }
}

/// The paths that the words are.
fn paths(alloc: Global, words: PlainWords<'_>) -> Result<Paths, AllocError>
    ensures { IfOk result (λ list. list ≡ plain words.entry) }
{
    let mut items = Vec::new(alloc);
    let mut left = words;
    while let Some((word, more)) = left.split_first() {
        items.push(PathText::of(alloc, word.as_bytes())?)?;
        left = more;
    }
    Ok(Paths::of(items))
}

impl Draft<'_> {
    /// The request, with words of its own.
    pub fn build(self, alloc: Global) -> Result<Request, AllocError>
        ensures { IfOk result (λ built. built ≡ request_of self.entry) }
    {
        Ok(match self {
            Draft::Solve(model, budget, log, order) => Request::Solve {
                model: file_name(alloc, model)?,
                budget,
                log: log_name(alloc, log)?,
                order,
            },
            Draft::Reconfigure(model, former, failed, budget, log, order) => Request::Reconfigure {
                model: file_name(alloc, model)?,
                former: file_name(alloc, former)?,
                failed: paths(alloc, failed)?,
                budget,
                log: log_name(alloc, log)?,
                order,
            },
            Draft::Check(model, log) => Request::Check {
                model: file_name(alloc, model)?,
                log: file_name(alloc, log)?,
                former: None,
                failed: Paths::of(Vec::new(alloc)),
            },
            Draft::CheckFormer(model, log, former, failed) => Request::Check {
                model: file_name(alloc, model)?,
                log: file_name(alloc, log)?,
                former: Some(file_name(alloc, former)?),
                failed: paths(alloc, failed)?,
            },
            Draft::Verify(model, config) => Request::Verify {
                model: file_name(alloc, model)?,
                config: file_name(alloc, config)?,
            },
            Draft::Gen(n) => Request::Gen { n },
            Draft::Session(model, former, events, budget, order) => Request::Session {
                model: file_name(alloc, model)?,
                former: file_name(alloc, former)?,
                events: file_name(alloc, events)?,
                budget,
                order,
            },
            Draft::Core(model, budget, order) => Request::Core {
                model: file_name(alloc, model)?,
                budget,
                order,
            },
        })
    }
}
