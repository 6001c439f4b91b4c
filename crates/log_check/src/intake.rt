//! Lines of a text that comes in pieces.
//!
//! The intake keeps the bytes behind the last LF, and of the lines before them what they left. A
//! line is read and checked as soon as it ends, where it stands: only one that began in an earlier
//! piece is copied.
ghost use Rattle.std.specs.Prelude.{◌≡◌, ◌+◌, ◌<◌, ◌≤◌, ◌^◌, ◌++◌, [], ◌∷◌, ℕ, List, true, length};
ghost use Rattle.std.specs.Prelude.{IfOk, IfErr, OnOk};
ghost use Rattle.ground_form.specs.WellMade.{IsWellMade};
ghost use Rattle.proof_log.specs.Spelling.{lacks};
ghost use Rattle.log_check.specs.Progress.{IsRight};
ghost use Rattle.log_check.specs.Fed.{HasTaken, IsRefusedText, left_of, left_with};

use crate::lines::CheckError;
use crate::progress::Progress;
use ground_form::Ground;
use proof_log::{LineError, ended_line, read_line};
use std::alloc::{AllocError, Global};
use std::mem;

/// What the bytes so far left.
#[derive(Drop)]
pub struct Intake {
    /// What the ended lines left.
    pub progress: Progress,
    /// The bytes behind the last LF.
    pub rest: Vec<u8>,
    /// How many lines have ended.
    pub count: u64,
}

impl Intake {
    /// Before the first byte. It takes memory for each variable of the problem.
    #[tactic(auto, using(crate::proofs::Feeding::fed_nothing))]
    pub fn new(alloc: Global, g: &Ground) -> Result<Self, AllocError>
        requires { IsWellMade g.now }
        ensures taken { IfOk result (λ i. HasTaken g.now [] (left_of i)) }
        ensures right { IfOk result (λ i. IsRight g.now i.progress) }
        ensures rest { IfOk result (λ i. i.rest.items ≡ []) }
        ensures count { IfOk result (λ i. i.count ≡ 0) }
    {
        let progress = Progress::new(alloc, g)?;
        Ok(Intake {
            progress,
            rest: Vec::new(alloc),
            count: 0,
        })
    }

    /// Takes in further bytes.
    pub fn take(&mut self, alloc: Global, g: &Ground, piece: &[u8]) -> Result<(), CheckError>
        requires made { IsWellMade g.now }
        requires right { IsRight g.now self.old.progress }
        requires few { self.old.count + length piece.now < 2 ^ 64 }
        ensures right { OnOk result (IsRight g.now self.new.progress) }
        ensures count { self.new.count ≤ self.old.count + length piece.now }
        ensures kept { OnOk result (self.new.count + length self.new.rest.items ≤ self.old.count
            + length self.old.rest.items + length piece.now) }
        ensures taken { OnOk result ((bytes : List ℕ) → HasTaken g.now bytes (left_of self.old)
            → HasTaken g.now (bytes ++ piece.now) (left_of self.new)) }
        ensures refused { IfErr result (λ e. (bytes : List ℕ)
            → HasTaken g.now bytes (left_of self.old) → IsRefusedText g.now (bytes ++ piece.now)
            e) }
    {
        let mut left = piece;
        while let Some((part, behind)) = ended_line(left) {
            self.end_line(alloc, g, part)?;
            left = behind;
        }
        self.rest.extend_from_slice(left)?;
        Ok(())
    }

    /// Takes in bytes without a LF, and the LF behind them.
    fn end_line(&mut self, alloc: Global, g: &Ground, part: &[u8]) -> Result<(), CheckError>
        requires made { IsWellMade g.now }
        requires right { IsRight g.now self.old.progress }
        requires few { self.old.count + 1 < 2 ^ 64 }
        requires unended { lacks 10 part.now ≡ true }
        ensures right { OnOk result (IsRight g.now self.new.progress) }
        ensures rest { OnOk result (self.new.rest.items ≡ []) }
        ensures count { self.new.count ≤ self.old.count + 1 }
        ensures taken { OnOk result ((bytes : List ℕ) → HasTaken g.now bytes (left_of self.old)
            → HasTaken g.now ((bytes ++ part.now) ++ 10 ∷ []) (left_of self.new)) }
        ensures refused { IfErr result (λ e. (bytes more : List ℕ) → HasTaken g.now bytes (left_of self.old)
            → IsRefusedText g.now ((bytes ++ part.now) ++ 10 ∷ more) e) }
    {
        if self.rest.is_empty() {
            return self.take_line(alloc, g, part);
        }
        self.rest.extend_from_slice(part)?;
        let line = mem::replace(&mut self.rest, Vec::new(alloc));
        self.take_line(alloc, g, line.as_slice())
    }

    /// Reads and checks a line that ends, where nothing is kept of it.
    fn take_line(&mut self, alloc: Global, g: &Ground, text: &[u8]) -> Result<(), CheckError>
        requires made { IsWellMade g.now }
        requires right { IsRight g.now self.old.progress }
        requires few { self.old.count + 1 < 2 ^ 64 }
        requires rest { self.old.rest.items ≡ [] }
        ensures right { OnOk result (IsRight g.now self.new.progress) }
        ensures rest { OnOk result (self.new.rest.items ≡ []) }
        ensures count { self.new.count ≤ self.old.count + 1 }
        ensures taken { OnOk result ((bytes : List ℕ) → HasTaken g.now bytes (left_with self.old text.now)
            → HasTaken g.now (bytes ++ 10 ∷ []) (left_of self.new)) }
        ensures refused { IfErr result (λ e. (bytes more : List ℕ) → HasTaken g.now bytes (left_with self.old text.now)
            → IsRefusedText g.now (bytes ++ 10 ∷ more) e) }
    {
        let number = self.count + 1;
        let line = match read_line(alloc, text) {
            Ok(line) => line,
            Err(LineError::BadLine) => return Err(CheckError::Rejected(number)),
            Err(LineError::Memory) => return Err(CheckError::Memory),
        };
        if !self.progress.step_with(alloc, g, line)? {
            return Err(CheckError::Rejected(number));
        }
        self.count = number;
        Ok(())
    }
}
