//! A checker that is fed the text of a log in pieces.
//!
//! However the bytes are cut, the answers are the same. Where the checker has refused once, it
//! answers the same from then on. Contracts see it as a `Feeding`: the ground problem, how many
//! bytes it was fed, and what it has refused with.
ghost use Rattle.std.specs.Prelude.{◌≡◌, ◌+◌, ◌<◌, ◌^◌, ◌++◌, [], ℕ, List, Some, None, Err, IfOk, IfErr, OnOk, IfSome, length};
ghost use Rattle.ground_form.specs.WellMade.{IsWellMade};
ghost use Rattle.log_check.specs.Soundness.{Means, FoundSolves};
ghost use Rattle.log_check.specs.Kinds.{shown_of};
ghost use Rattle.log_check.specs.declared.lines.CheckError.TheVariants.{Rejected};
ghost use Rattle.log_check.specs.Fed.{HasTaken, IsRefusedText, IsLogOf};

use crate::intake::Intake;
use crate::lines::CheckError;
use crate::verdict::Verdict;
use ground_form::Ground;
use std::alloc::{AllocError, Global};
use std::marker::Model;

/// A checker that is fed a log.
#[derive(Drop)]
pub struct Checker<'g> {
    alloc: Global,
    ground: &'g Ground,
    intake: Intake,
    fed: u64,
    refusal: Option<CheckError>,
}

impl<'g> Model for Checker<'g> {
    ghost use Rattle.log_check.specs.Fed.{Feeding, IsReady, left_of};

    ghost Value = { Feeding };

    ghost view = { λ c. record { ground = c.ground.now; fed = c.fed; refusal = c.refusal; left = left_of c.intake } };

    ghost invariant = { λ c. IsReady c.ground.now c.fed c.refusal c.intake };
}

impl<'g> Checker<'g> {
    /// A checker of logs against the ground problem. It was fed nothing. It takes memory for each
    /// variable of the problem.
    pub fn new(alloc: Global, g: &'g Ground) -> Result<Checker<'g>, AllocError>
        requires { IsWellMade g.now }
        ensures ground { IfOk result (λ c. c.ground ≡ g.now) }
        ensures fed { IfOk result (λ c. c.fed ≡ 0) }
        ensures refusal { IfOk result (λ c. c.refusal ≡ None) }
        ensures taken { IfOk result (λ c. HasTaken g.now [] c.left) }
    {
        let intake = Intake::new(alloc, g)?;
        Ok(Checker {
            alloc,
            ground: g,
            intake,
            fed: 0,
            refusal: None,
        })
    }

    /// Takes in further bytes. Each line is checked as soon as it ends. Bytes that come behind a
    /// refusal are counted too, but not looked at.
    ///
    /// # Errors
    /// `Rejected` with the number of the first line that ends and isn't spelled or accepted. Where
    /// it has refused once, it answers the same again.
    pub fn feed(&mut self, piece: &[u8]) -> Result<(), CheckError>
        requires { self.old.fed + length piece.now < 2 ^ 64 }
        ensures ground { self.new.ground ≡ self.old.ground }
        ensures fed { self.new.fed ≡ self.old.fed + length piece.now }
        ensures again { IfSome self.old.refusal (λ e. result ≡ Err e) }
        ensures ok { OnOk result (self.new.refusal ≡ None) }
        ensures err { IfErr result (λ e. self.new.refusal ≡ Some e) }
        ensures taken { OnOk result ((bytes : List ℕ) → HasTaken self.old.ground bytes self.old.left
            → HasTaken self.old.ground (bytes ++ piece.now) self.new.left) }
        ensures refused { self.old.refusal ≡ None → IfErr result (λ e. (bytes : List ℕ) → HasTaken self.old.ground bytes self.old.left
            → IsRefusedText self.old.ground (bytes ++ piece.now) e) }
    {
        self.fed += piece.len() as u64;
        if let Some(e) = self.refusal {
            return Err(e);
        }
        match self.intake.take(self.alloc, self.ground, piece) {
            Ok(()) => Ok(()),
            Err(e) => {
                self.refusal = Some(e);
                Err(e)
            }
        }
    }

    /// The verdict of all lines.
    ///
    /// # Errors
    /// What `feed` has refused with; else `Rejected` where bytes stand behind the last LF, with the
    /// number that a line there would have.
    pub fn finish(self) -> Result<Verdict, CheckError>
        ensures again { IfSome self.entry.refusal (λ e. result ≡ Err e) }
        ensures sound { IfOk result (λ v. Means self.entry.ground (shown_of v)) }
        ensures found { IfOk result (λ v. FoundSolves self.entry.ground v.found) }
        ensures verdict { IfOk result (λ v. (bytes : List ℕ) → HasTaken self.entry.ground bytes self.entry.left
            → IsLogOf self.entry.ground bytes v) }
        ensures rest { IfOk result (λ v. self.entry.left.rest ≡ []) }
        ensures refused { self.entry.refusal ≡ None
            → IfErr result (λ e. (e ≡ Rejected (self.entry.left.ended + 1))
            × (0 < length self.entry.left.rest)) }
    {
        if let Some(e) = self.refusal {
            return Err(e);
        }
        if !self.intake.rest.is_empty() {
            return Err(CheckError::Rejected(self.intake.count + 1));
        }
        Ok(self.intake.progress.into_verdict())
    }
}
