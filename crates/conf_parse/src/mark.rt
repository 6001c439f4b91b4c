//! Marks, and the spellings of keywords by marks.
ghost use Rattle.std.specs.Prelude.{◌≡◌, true, false, [], ◌∷◌, MatchOption};
ghost use Rattle.conf_syntax.specs.Spelling.{IsSpelling};
ghost use Rattle.conf_parse.specs.Marks.{is_pair, is_single};

use conf_syntax::{Key, Mark, Token};

/// The token that two bytes spell, if they are a mark.
pub(crate) fn pair(first: u8, second: u8) -> Option<Token>
    ensures { MatchOption result (is_pair first second ≡ false)
        (λ token. (is_pair first second ≡ true) × IsSpelling token (first ∷ second ∷ [])) }
{
    let token = match (first, second) {
        (b'.', b'.') => Token::Mark(Mark::DotDot),
        (b'-', b'>') => Token::Mark(Mark::Arrow),
        (b'=', b'=') => Token::Mark(Mark::Equal),
        (b'!', b'=') => Token::Mark(Mark::NotEqual),
        (b'<', b'=') => Token::Mark(Mark::AtMost),
        (b'>', b'=') => Token::Mark(Mark::AtLeast),
        (b'&', b'&') => Token::Key(Key::And),
        (b'|', b'|') => Token::Key(Key::Or),
        _ => return None,
    };
    Some(token)
}

/// The token that one byte spells, if it is a mark.
pub(crate) fn single(byte: u8) -> Option<Token>
    ensures { MatchOption result (is_single byte ≡ false) (λ token. (is_single byte ≡ true)
        × IsSpelling token (byte ∷ [])) }
{
    let mark = match byte {
        b'{' => Mark::OpenBrace,
        b'}' => Mark::CloseBrace,
        b'[' => Mark::OpenBracket,
        b']' => Mark::CloseBracket,
        b'(' => Mark::OpenParen,
        b')' => Mark::CloseParen,
        b';' => Mark::Semicolon,
        b',' => Mark::Comma,
        b'.' => Mark::Dot,
        b'=' => Mark::Equal,
        b'<' => Mark::Less,
        b'>' => Mark::Greater,
        b'+' => Mark::Plus,
        b'-' => Mark::Minus,
        b'*' => Mark::Star,
        b'!' => return Some(Token::Key(Key::Not)),
        _ => return None,
    };
    Some(Token::Mark(mark))
}
