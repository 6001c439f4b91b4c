//! The options behind the files: each with a word behind it, in any order, each once.
ghost use Rattle.std.specs.Prelude.{◌≡◌, ◌∷◌, Some, map, string_bytes, option_map};
ghost use Rattle.site_words.specs.Words.{is_option, options_seen, no_options, with_goal, with_extra, with_from, with_option, options, state_in, options_in, beside_of};

/// What stands behind each option.
#[derive(Clone, Copy)]
pub(crate) struct Found<'a> {
    pub goal: Option<&'a str>,
    pub extra: Option<&'a str>,
    pub from: Option<&'a str>,
}

/// Whether a word begins with a dash.
pub(crate) fn is_option(word: &str) -> bool
    ensures { result ≡ is_option word.now }
{
    word.as_bytes().starts_with(b"-")
}

/// Options, and a goal.
fn with_goal<'a>(found: Found<'a>, goal: &'a str) -> Option<Found<'a>>
    ensures { option_map options_seen result ≡ with_goal (options_seen found.entry) goal.now }
{
    if found.goal.is_some() {
        return None;
    }
    Some(Found {
        goal: Some(goal),
        extra: found.extra,
        from: found.from,
    })
}

/// Options, and a file of constraints.
fn with_extra<'a>(found: Found<'a>, extra: &'a str) -> Option<Found<'a>>
    ensures { option_map options_seen result ≡ with_extra (options_seen found.entry) extra.now }
{
    if found.extra.is_some() || is_option(extra) {
        return None;
    }
    Some(Found {
        goal: found.goal,
        extra: Some(extra),
        from: found.from,
    })
}

/// Options, and a file of a former text.
fn with_from<'a>(found: Found<'a>, from: &'a str) -> Option<Found<'a>>
    ensures { option_map options_seen result ≡ with_from (options_seen found.entry) from.now }
{
    if found.from.is_some() || is_option(from) {
        return None;
    }
    Some(Found {
        goal: found.goal,
        extra: found.extra,
        from: Some(from),
    })
}

/// Options, and one more.
fn with_option<'a>(found: Found<'a>, name: &str, value: &'a str) -> Option<Found<'a>>
    ensures { option_map options_seen result
        ≡ with_option (options_seen found.entry) name.now value.now }
{
    if name == "--goal" {
        with_goal(found, value)
    } else if name == "--extra" {
        with_extra(found, value)
    } else if name == "--from" {
        with_from(found, value)
    } else {
        None
    }
}

/// Options, and those that words are, if they are options.
#[tactic(auto, using(crate::proofs::OptionLaws::none_found))]
#[cycle(read)]
fn options_from<'a>(found: Option<Found<'a>>, words: &'a [String]) -> Option<Found<'a>>
    ensures { option_map options_seen result
        ≡ options (option_map options_seen found.entry) (map string_bytes words.now) }
{
    match found {
        None => None,
        Some(found) => match words {
            [] => Some(found),
            [name, more @ ..] => options_behind(found, name, more),
        },
    }
}

/// Options, and those that a name and the words behind it are, if they are options.
#[cycle(read)]
fn options_behind<'a>(found: Found<'a>, name: &str, words: &'a [String]) -> Option<Found<'a>>
    ensures { option_map options_seen result ≡ options (Some (options_seen found.entry))
        (name.now ∷ map string_bytes words.now) }
{
    match words {
        [] => None,
        [value, more @ ..] => options_after(found, name, value, more),
    }
}

/// Options, with one more, and those that the words behind it are, if they are options.
#[tactic(auto, using(crate::proofs::OptionLaws::one_more))]
#[cycle(read)]
fn options_after<'a>(
    found: Found<'a>,
    name: &str,
    value: &'a str,
    words: &'a [String],
) -> Option<Found<'a>>
    ensures { option_map options_seen result ≡ options (Some (options_seen found.entry))
        (name.now ∷ value.now ∷ map string_bytes words.now) }
{
    let next = with_option(found, name, value);
    options_from(next, words)
}

/// The options that words are, if they are options.
pub(crate) fn options_of(words: &[String]) -> Option<Found<'_>>
    ensures { option_map options_seen result
        ≡ options (Some no_options) (map string_bytes words.now) }
{
    let found = Found {
        goal: None,
        extra: None,
        from: None,
    };
    options_from(Some(found), words)
}

/// The third file, where one stands before the options.
pub(crate) fn state_in(words: &[String]) -> Option<&str>
    ensures { option_map (λ w. w.now) result ≡ state_in (map string_bytes words.now) }
{
    match words {
        [first, ..] if !is_option(first) => Some(first.as_str()),
        _ => None,
    }
}

/// The words behind the third file.
pub(crate) fn options_in(words: &[String]) -> &[String]
    ensures { map string_bytes result.now ≡ options_in (map string_bytes words.now) }
{
    match words {
        [first, more @ ..] if !is_option(first) => more,
        _ => words,
    }
}

/// The file of constraints, or of a former text.
pub(crate) fn beside_of<'a>(found: Found<'a>) -> Option<&'a str>
    ensures { option_map (λ w. w.now) result ≡ beside_of (options_seen found.entry) }
{
    if found.extra.is_some() {
        found.extra
    } else {
        found.from
    }
}
