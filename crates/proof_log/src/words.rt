//! The words that lines begin with.
ghost use Rattle.std.specs.Prelude.{◌≡◌, IfSome, IfNone};
ghost use Rattle.proof_log.specs.Words.{word_text};
ghost use Rattle.proof_log.specs.declared.words.Word as declared;

/// The word that a line begins with.
#[derive(Clone, Copy, Debug, PartialEq, Eq)]
pub enum Word {
    /// `axiom`
    Axiom,
    /// `chain`
    Chain,
    /// `bound`
    Bound,
    /// `use`
    Use,
    /// `found`
    Found,
    /// `decide`
    Decide,
    /// `empty`
    Empty,
}

/// The word of this text.
pub fn word_of(text: &[u8]) -> Option<Word>
    ensures some { IfSome result (λ w. text.now ≡ word_text w) }
    ensures none { IfNone result ((w : declared.Word) → text.now ≡ word_text w → ⊥) }
{
    match text {
        b"axiom" => Some(Word::Axiom),
        b"chain" => Some(Word::Chain),
        b"bound" => Some(Word::Bound),
        b"use" => Some(Word::Use),
        b"found" => Some(Word::Found),
        b"decide" => Some(Word::Decide),
        b"empty" => Some(Word::Empty),
        _ => None,
    }
}
