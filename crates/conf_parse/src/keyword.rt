//! Which words are keywords.
ghost use Rattle.std.specs.Prelude.{◌≡◌, MatchBool, MatchOption};
ghost use Rattle.conf_syntax.specs.declared.token.Key.{Key};
ghost use Rattle.conf_syntax.specs.Lexis.{key_text};
ghost use Rattle.conf_syntax.specs.Spelling.{IsKeySpelling, key_text_too};

use conf_syntax::Key;

const KEYS: [Key; 25] = [
    Key::Enum,
    Key::Abstract,
    Key::Class,
    Key::Extends,
    Key::Var,
    Key::As,
    Key::Int,
    Key::Bool,
    Key::Ref,
    Key::Where,
    Key::Forall,
    Key::Exists,
    Key::Sum,
    Key::Count,
    Key::AllDifferent,
    Key::Pack,
    Key::In,
    Key::Maximize,
    Key::Minimize,
    Key::True,
    Key::False,
    Key::This,
    Key::And,
    Key::Or,
    Key::Not,
];

// The first spelling of a keyword.
fn text(key: Key) -> &'static [u8]
    ensures { result.now ≡ key_text key }
{
    match key {
        Key::Enum => b"enum",
        Key::Abstract => b"abstract",
        Key::Class => b"class",
        Key::Extends => b"extends",
        Key::Var => b"var",
        Key::As => b"as",
        Key::Int => b"int",
        Key::Bool => b"bool",
        Key::Ref => b"ref",
        Key::Where => b"where",
        Key::Forall => b"forall",
        Key::Exists => b"exists",
        Key::Sum => b"sum",
        Key::Count => b"count",
        Key::AllDifferent => b"alldifferent",
        Key::Pack => b"pack",
        Key::In => b"in",
        Key::Maximize => b"maximize",
        Key::Minimize => b"minimize",
        Key::True => b"true",
        Key::False => b"false",
        Key::This => b"this",
        Key::And => b"and",
        Key::Or => b"or",
        Key::Not => b"not",
    }
}

// The second spelling of a keyword, the first where it has no second.
fn text_too(key: Key) -> &'static [u8]
    ensures { result.now ≡ key_text_too key }
{
    match key {
        Key::Forall => b"foreach",
        Key::And => b"&&",
        Key::Or => b"||",
        Key::Not => b"!",
        _ => text(key),
    }
}

// Whether a word spells this keyword.
fn spells(key: Key, word: &[u8]) -> bool
    ensures { MatchBool result (IsKeySpelling key word.now) (IsKeySpelling key word.now → ⊥) }
{
    word == text(key) || word == text_too(key)
}

/// The keyword that a word spells.
pub(crate) fn keyword(word: &[u8]) -> Option<Key>
    ensures { MatchOption result ((k : Key) → IsKeySpelling k word.now → ⊥)
        (λ k. IsKeySpelling k word.now) }
{
    for key in KEYS {
        if spells(key, word) {
            return Some(key);
        }
    }
    None
}
