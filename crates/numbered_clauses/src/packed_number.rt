//! Numbers as bytes.
//!
//! A number is its digits of seven bits, the least first; the last one has 128 added to it. A value
//! with a sign is a number by turns: 0, -1, 1, -2 and so on are 0, 1, 2 and 3.
ghost use Rattle.std.specs.Prelude.{◌≡◌, ◌<◌, ◌+◌, ◌*◌, ◌%◌, ◌^◌, ◌++◌, OnOk};
ghost use Rattle.numbered_clauses.specs.Numbers as bytes;
ghost use Rattle.numbered_clauses.specs.Numbers.{coded, number_of, behind_number, number_bytes};

use std::alloc::AllocError;

/// The most digits behind a first one.
const MORE_DIGITS: u32 = 9;

/// Adds the bytes of a number.
#[tactic(auto, unfolding(crate::specs::Numbers::number_bytes))]
pub fn push_number(out: &mut Vec<u8>, n: u64) -> Result<(), AllocError>
    ensures { OnOk result (out.new.items ≡ out.old.items ++ number_bytes n) }
{
    push_digits(out, n, MORE_DIGITS)
}

/// Adds the digits of a number, of which so many may stand behind the first.
#[tactic(auto, using(crate::proofs::CodeLaws::digits_more))]
fn push_digits(out: &mut Vec<u8>, n: u64, more: u32) -> Result<(), AllocError>
    ensures { OnOk result (out.new.items ≡ out.old.items ++ coded more n) }
{
    if n < 128 || more == 0 {
        out.push((n % 128) as u8 + 128)?;
        return Ok(());
    }
    out.push((n % 128) as u8)?;
    push_digits(out, n / 128, more - 1)
}

/// The number that bytes begin with, and what stands behind it.
pub fn read_number(text: &[u8]) -> (u64, &[u8])
    ensures number { result.0 ≡ number_of text.now }
    ensures behind { result.1.now ≡ behind_number text.now }
{
    match text {
        [] => (0, text),
        [digit, behind @ ..] => {
            if *digit >= 128 {
                return ((*digit - 128) as u64, behind);
            }
            let (more, behind) = read_number(behind);
            (with_digit(more, *digit), behind)
        }
    }
}

/// The number with one more digit before the others.
fn with_digit(more: u64, digit: u8) -> u64
    requires { digit < 128 }
    ensures { result ≡ more % 2 ^ 57 * 128 + digit }
{
    more % (1 << 57) * 128 + digit as u64
}

/// The number of a value.
pub fn unsigned_of(v: i64) -> u64
    ensures { result ≡ bytes.unsigned_of v }
{
    if v < 0 {
        2 * (v.unsigned_abs() - 1) + 1
    } else {
        2 * v.unsigned_abs()
    }
}

/// The value of a number.
pub fn signed_of(n: u64) -> i64
    ensures { result ≡ bytes.signed_of n }
{
    if n % 2 == 0 {
        (n / 2) as i64
    } else {
        -((n / 2) as i64) - 1
    }
}
