//! What the words ask for.
ghost use Rattle.std.specs.Prelude.{◌≡◌, Some, map, string_bytes, option_map};
ghost use Rattle.site_words.specs.Words.{job_of, options_seen, spread_named, goal_named, keep_named, plain_job, model_by, model_job, former_job, table_job, command_job, asked_by, options, no_options, state_in, options_in, asked, request_seen};

use crate::options::{Found, beside_of, is_option, options_in, options_of, state_in};

/// What is printed.
#[derive(Clone, Copy)]
pub enum Task<'a> {
    /// The model, with nothing that a placement is to be best at.
    Plain,
    /// The model, with as few hosts in use as can be.
    Fewest,
    /// The model, with the least greatest load of the resource of this name.
    Spread(&'a [u8]),
    /// The model, with the fewest moves from today.
    Keep,
    /// Where everything runs today, as a former text.
    Former,
    /// An answer as a table.
    Table,
    /// The same, with what has changed.
    Changes,
}

/// What is printed, and the files that it is made of.
#[derive(Clone, Copy)]
pub struct Request<'a> {
    pub task: Task<'a>,
    /// The file of the hosts.
    pub hosts: &'a str,
    /// The file of the services.
    pub services: &'a str,
    /// That of what runs where: a table of today, or an answer.
    pub state: Option<&'a str>,
    /// One beside it: constraints, or a former text.
    pub beside: Option<&'a str>,
}

/// The task of an even load, where that is the goal.
fn spread_named(word: &str) -> Option<Task<'_>>
    ensures { option_map job_of result ≡ spread_named word.now }
{
    match word.as_bytes().strip_prefix(b"spread:") {
        Some(resource) => Some(Task::Spread(resource)),
        None => None,
    }
}

/// The task of a goal that two tables may have.
fn goal_named(word: &str) -> Option<Task<'_>>
    ensures { option_map job_of result ≡ goal_named word.now }
{
    if word == "none" {
        Some(Task::Plain)
    } else if word == "fewest" {
        Some(Task::Fewest)
    } else {
        spread_named(word)
    }
}

/// The task of a goal that needs today.
fn keep_named<'a>(word: &str) -> Option<Task<'a>>
    ensures { option_map job_of result ≡ keep_named word.now }
{
    if word == "keep" {
        Some(Task::Keep)
    } else {
        None
    }
}

/// The task of a model of two tables.
fn plain_job<'a>(goal: Option<&'a str>) -> Option<Task<'a>>
    ensures { option_map job_of result ≡ plain_job (option_map (λ w. w.now) goal.entry) }
{
    match goal {
        Some(word) => goal_named(word),
        None => Some(Task::Plain),
    }
}

/// The task of a model, by whether there is a table of today.
fn model_by<'a>(state: Option<&'a str>, goal: Option<&'a str>) -> Option<Task<'a>>
    ensures { option_map job_of result ≡ model_by (option_map (λ w. w.now) state.entry)
        (option_map (λ w. w.now) goal.entry) }
{
    match state {
        None => plain_job(goal),
        Some(_) => match goal {
            Some(word) => keep_named(word),
            None => None,
        },
    }
}

/// The task of `model`.
fn model_job<'a>(state: Option<&'a str>, found: Found<'a>) -> Option<Task<'a>>
    ensures { option_map job_of result ≡ model_job (option_map (λ w. w.now) state.entry)
        (options_seen found.entry) }
{
    if found.from.is_some() {
        None
    } else {
        model_by(state, found.goal)
    }
}

/// The task of `former`.
fn former_job<'a>(state: Option<&'a str>, found: Found<'a>) -> Option<Task<'a>>
    ensures { option_map job_of result ≡ former_job (option_map (λ w. w.now) state.entry)
        (options_seen found.entry) }
{
    let is_plain = !(found.goal.is_some() || found.extra.is_some() || found.from.is_some());
    if state.is_some() && is_plain {
        Some(Task::Former)
    } else {
        None
    }
}

/// The task of `table`.
fn table_job<'a>(state: Option<&'a str>, found: Found<'a>) -> Option<Task<'a>>
    ensures { option_map job_of result ≡ table_job (option_map (λ w. w.now) state.entry)
        (options_seen found.entry) }
{
    let is_plain = !(found.goal.is_some() || found.extra.is_some());
    if state.is_some() && is_plain {
        if found.from.is_some() {
            Some(Task::Changes)
        } else {
            Some(Task::Table)
        }
    } else {
        None
    }
}

/// The task of a command.
fn command_job<'a>(command: &str, state: Option<&'a str>, found: Found<'a>) -> Option<Task<'a>>
    ensures { option_map job_of result ≡ command_job command.now
        (option_map (λ w. w.now) state.entry) (options_seen found.entry) }
{
    if command == "model" {
        model_job(state, found)
    } else if command == "former" {
        former_job(state, found)
    } else if command == "table" {
        table_job(state, found)
    } else {
        None
    }
}

/// What a command asks for of these files and options.
fn request_by<'a>(
    command: &str,
    hosts: &'a str,
    services: &'a str,
    state: Option<&'a str>,
    found: Option<Found<'a>>,
) -> Option<Request<'a>>
    ensures { option_map request_seen result ≡ asked_by command.now hosts.now services.now
        (option_map (λ w. w.now) state.entry) (option_map options_seen found.entry) }
{
    match found {
        Some(found) => match command_job(command, state, found) {
            Some(task) => Some(Request {
                task,
                hosts,
                services,
                state,
                beside: beside_of(found),
            }),
            None => None,
        },
        None => None,
    }
}

/// What the words behind the program's name ask for, if they are a request.
pub fn request_of(words: &[String]) -> Option<Request<'_>>
    ensures { option_map request_seen result ≡ asked (map string_bytes words.now) }
{
    match words {
        [command, hosts, services, more @ ..] => {
            if is_option(hosts) || is_option(services) {
                return None;
            }
            let found = options_of(options_in(more));
            request_by(command, hosts, services, state_in(more), found)
        }
        [] => None,
        [_] => None,
        [_, _] => None,
    }
}
