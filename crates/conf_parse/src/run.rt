//! Rows of bytes of one kind: the rest of a word, digits, the rest of a line.
ghost use Rattle.std.specs.Prelude.{◌≡◌, ◌≤◌, true, [], ◌∷◌, length, take, drop, MatchOption};
ghost use Rattle.std.specs.List.{list_all};
ghost use Rattle.conf_syntax.specs.Spelling.{is_letter, Stops};
ghost use Rattle.conf_parse.specs.Runs.{goes_in};

/// A kind of row.
#[derive(Clone, Copy)]
pub(crate) enum Run {
    /// Letters, digits and underscores.
    Word,
    Digits,
    /// All bytes but LF.
    Line,
}

/// Whether a byte is a letter of ASCII or an underscore.
pub(crate) fn is_letter(byte: u8) -> bool
    ensures { result ≡ is_letter byte }
{
    matches!(byte, b'A'..=b'Z' | b'a'..=b'z' | b'_')
}

/// The first byte of a text and those behind it.
pub(crate) fn split(text: &[u8]) -> Option<(u8, &[u8])>
    ensures { MatchOption result (text.now ≡ []) (λ found. text.now ≡ found.0 ∷ found.1.now) }
{
    match text {
        [first, behind @ ..] => Some((*first, behind)),
        [] => None,
    }
}

impl Run {
    // Whether the row goes on with this byte.
    fn has(self, byte: u8) -> bool
        ensures { result ≡ goes_in self byte }
    {
        match self {
            Run::Word => is_letter(byte) || byte.is_ascii_digit(),
            Run::Digits => byte.is_ascii_digit(),
            Run::Line => byte != b'\n',
        }
    }
}

/// How many bytes the row at the front of a text has.
#[tactic(auto, using(std::proofs::lemmas::List::Folds::list_all_more))]
pub(crate) fn run_length(text: &[u8], run: Run) -> usize
    ensures within { result ≤ length text.now }
    ensures row { list_all (goes_in run) (take result text.now) ≡ true }
    ensures stops { Stops (goes_in run) (drop result text.now) }
{
    for (length, byte) in text.iter().enumerate() {
        if !run.has(*byte) {
            return length;
        }
    }
    text.len()
}
