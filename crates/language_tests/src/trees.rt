//! Trees of rows of tokens, and the refusals of rows that have none. A row is written in letters,
//! one for each token; the token with number k stands at the place 2 * k. `outcome ROW` asks
//! whether it is a model, `nested OPEN COUNT BEHIND` the same of a `where` with so many times the
//! first text, and `places ROW` for the places of its declarations.
use conf_parse::{ParseError, parse};
use conf_syntax::{
    ClassDecl, EnumDecl, Item, Key, Mark, Member, Name, Placed, Program, Shape, Token, VarDecl,
    WhereDecl,
};
use std::alloc::{AllocError, Global};
use test_case_files::{Case, Subject, number_at, push_word, words_of};

/// What is asked of the parser.
#[derive(Drop)]
pub(crate) struct Trees;

/// The keyword of a letter.
fn key(letter: u8) -> Option<Key> {
    Some(match letter {
        b'E' => Key::Enum,
        b'A' => Key::Abstract,
        b'C' => Key::Class,
        b'X' => Key::Extends,
        b'V' => Key::Var,
        b'a' => Key::As,
        b'I' => Key::Int,
        b'B' => Key::Bool,
        b'R' => Key::Ref,
        b'W' => Key::Where,
        b'F' => Key::Forall,
        b'S' => Key::Exists,
        b'U' => Key::Sum,
        b'K' => Key::Count,
        b'D' => Key::AllDifferent,
        b'P' => Key::Pack,
        b'i' => Key::In,
        b'M' => Key::Maximize,
        b'm' => Key::Minimize,
        b'T' => Key::True,
        b'L' => Key::False,
        b't' => Key::This,
        b'&' => Key::And,
        b'|' => Key::Or,
        b'!' => Key::Not,
        _ => return None,
    })
}

/// The mark of a letter; a semicolon where it has none of its own.
fn mark(letter: u8) -> Mark {
    match letter {
        b'{' => Mark::OpenBrace,
        b'}' => Mark::CloseBrace,
        b'[' => Mark::OpenBracket,
        b']' => Mark::CloseBracket,
        b'(' => Mark::OpenParen,
        b')' => Mark::CloseParen,
        b',' => Mark::Comma,
        b'.' => Mark::Dot,
        b':' => Mark::DotDot,
        b'>' => Mark::Arrow,
        b'=' => Mark::Equal,
        b'#' => Mark::NotEqual,
        b'<' => Mark::Less,
        b'l' => Mark::AtMost,
        b'G' => Mark::Greater,
        b'g' => Mark::AtLeast,
        b'+' => Mark::Plus,
        b'-' => Mark::Minus,
        b'*' => Mark::Star,
        _ => Mark::Semicolon,
    }
}

/// The token of a letter.
fn token(alloc: Global, letter: u8) -> Result<Token, AllocError> {
    if letter == b'w' {
        return Ok(Token::Word(Name::of(alloc, b"x")?));
    }
    if letter == b'n' {
        return Ok(Token::Number(1));
    }
    Ok(match key(letter) {
        Some(key) => Token::Key(key),
        None => Token::Mark(mark(letter)),
    })
}

/// The tree of a row.
fn parsed(alloc: Global, text: &[u8]) -> Result<Result<Program, ParseError>, AllocError> {
    let mut list = Vec::new(alloc);
    let mut at = 0_u32;
    for letter in text {
        let token = token(alloc, *letter)?;
        list.push(Placed { token, at })?;
        at = at.saturating_add(2);
    }
    Ok(parse(alloc, &list, at))
}

/// Whether a row is a model, or why it isn't.
fn outcome(alloc: Global, text: &[u8]) -> Result<String, AllocError> {
    match parsed(alloc, text)? {
        Ok(_) => String::from_str(alloc, "Model"),
        Err(error) => format!(in alloc; "{error:?}"),
    }
}

/// The row of a `where` with the first text so many times, and then the second.
fn nested(alloc: Global, open: &str, count: u32, behind: &str) -> Result<Vec<u8>, AllocError> {
    let mut text = Vec::new(alloc);
    text.push(b'W')?;
    for _ in 0..count {
        text.extend_from_slice(open.as_bytes())?;
    }
    text.extend_from_slice(behind.as_bytes())?;
    Ok(text)
}

/// What comes of the row that three words tell.
fn outcome_of_nested(alloc: Global, words: &[&str]) -> Result<String, AllocError> {
    match words {
        [open, _, behind] => {
            let text = nested(alloc, open, number_at(words, 1), behind)?;
            outcome(alloc, &text)
        }
        _ => String::from_str(alloc, "what?"),
    }
}

/// Adds the places of a shape.
fn shape_places(shape: &Shape, places: &mut Vec<u32>) -> Result<(), AllocError> {
    match shape {
        Shape::Range(low, high) => {
            places.push(low.at)?;
            places.push(high.at)?;
        }
        Shape::Int | Shape::Bool => {}
        Shape::Named(name) | Shape::Many(name, _) | Shape::Ref(name) | Shape::RefSet(name, _) => {
            places.push(name.at)?;
        }
    }
    Ok(())
}

/// Adds the places of a variable.
fn var_places(decl: &VarDecl, places: &mut Vec<u32>) -> Result<(), AllocError> {
    places.push(decl.name.at)?;
    shape_places(&decl.shape, places)
}

/// Adds the places of a `where`.
fn where_places(decl: &WhereDecl, places: &mut Vec<u32>) -> Result<(), AllocError> {
    places.push(decl.at)?;
    for constraint in decl.list.items() {
        places.push(constraint.at)?;
    }
    Ok(())
}

/// Adds the places of an enumeration.
fn enum_places(decl: &EnumDecl, places: &mut Vec<u32>) -> Result<(), AllocError> {
    places.push(decl.name.at)?;
    for value in decl.values.items() {
        places.push(value.at)?;
    }
    Ok(())
}

/// Adds the places of a class.
fn class_places(decl: &ClassDecl, places: &mut Vec<u32>) -> Result<(), AllocError> {
    places.push(decl.name.at)?;
    if let Some(parent) = &decl.parent {
        places.push(parent.at)?;
    }
    for member in decl.members.items() {
        match member {
            Member::Var(decl) => var_places(decl, places)?,
            Member::Where(decl) => where_places(decl, places)?,
        }
    }
    Ok(())
}

/// The places of a model's declarations, in the order of the text.
fn places(alloc: Global, text: &[u8]) -> Result<Vec<u32>, AllocError> {
    let mut places = Vec::new(alloc);
    let Ok(program) = parsed(alloc, text)? else {
        return Ok(places);
    };
    for item in program.items.items() {
        match item {
            Item::Enum(decl) => enum_places(decl, &mut places)?,
            Item::Class(decl) => class_places(decl, &mut places)?,
            Item::Var(decl) => var_places(decl, &mut places)?,
            Item::Where(decl) => where_places(decl, &mut places)?,
            Item::Goal(decl) => {
                places.push(decl.at)?;
                places.push(decl.expr.at)?;
            }
        }
    }
    Ok(places)
}

/// Numbers, separated by spaces.
pub(crate) fn numbers_text(alloc: Global, numbers: &[u32]) -> Result<String, AllocError> {
    let mut text = String::new(alloc);
    for number in numbers {
        push_word(&mut text, &format!(in alloc; "{number}")?)?;
    }
    Ok(text)
}

impl Subject for Trees {
    fn answer(&mut self, alloc: Global, case: &Case<'_>) -> Result<String, AllocError> {
        let text = case.text.as_slice();
        match case.ask {
            "outcome" => outcome(alloc, text),
            "places" => numbers_text(alloc, &places(alloc, text)?),
            _ => outcome_of_nested(alloc, &words_of(alloc, text)?),
        }
    }
}
