//! Texts cut at a separator.
ghost use Rattle.std.specs.Prelude.{◌≡◌, ℕ, ◌≤◌, List, ◌∷◌, ◌++◌, length, take, drop, true, IfSome, IfNone};
ghost use Rattle.proof_log.specs.Parts.{heads, IsCut, IsNextPart};
ghost use Rattle.proof_log.specs.Spelling.{lacks};

/// The text up to the first separator, and what is left.
#[tactic(auto, using(crate::proofs::Separated::cut_at))]
pub fn split_before(text: &[u8], separator: u8) -> (&[u8], &[u8])
    ensures { IsCut separator text.now result.0.now result.1.now }
{
    text.split_at(first_place(text, separator))
}

/// Where the separator first stands, else the end.
#[tactic(auto, using(std::proofs::lemmas::List::Folds::list_all_more))]
fn first_place(text: &[u8], separator: u8) -> usize
    ensures within { result ≤ length text.now }
    ensures lacks { lacks separator (take result text.now) ≡ true }
    ensures heads { heads separator (drop result text.now) ≡ true }
{
    for (i, b) in text.iter().enumerate() {
        if *b == separator {
            return i;
        }
    }
    text.len()
}

/// What stands behind the separator, where the text begins with it.
pub fn behind_separator(text: &[u8], separator: u8) -> Option<&[u8]>
    ensures some { IfSome result (λ rest. text.now ≡ separator ∷ rest.now) }
    ensures none { IfNone result ((rest : List ℕ) → text.now ≡ separator ∷ rest → ⊥) }
{
    if text.is_empty() || text[0] != separator {
        return None;
    }
    Some(&text[1..])
}

/// The text up to the next separator, behind the one that a text begins with, and what is left.
pub fn next_part(text: &[u8], separator: u8) -> Option<(&[u8], &[u8])>
    ensures some { IfSome result (λ part. IsNextPart separator text.now part.0.now part.1.now) }
    ensures none { IfNone result ((rest : List ℕ) → text.now ≡ separator ∷ rest → ⊥) }
{
    let rest = behind_separator(text, separator)?;
    Some(split_before(rest, separator))
}

/// The bytes up to the first LF, and those behind it.
pub fn ended_line(text: &[u8]) -> Option<(&[u8], &[u8])>
    ensures some { IfSome result (λ parts. (text.now ≡ parts.0.now ++ 10 ∷ parts.1.now)
        × (lacks 10 parts.0.now ≡ true)) }
    ensures none { IfNone result (lacks 10 text.now ≡ true) }
{
    let (line, rest) = split_before(text, b'\n');
    let behind = behind_separator(rest, b'\n')?;
    Some((line, behind))
}
