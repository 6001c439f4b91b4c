//! The journal of a search: ground problems and the lines that speak of them.
//!
//! A journal has a present round, a ground problem and lines, and the rounds that were closed
//! before. Contracts see it as the `Journal` of `specs/Rounds`. Whatever runs out of memory leaves
//! it as it was.
ghost use Rattle.std.specs.Prelude.{◌≡◌, ◌++◌, [], ◌∷◌, Some, None, IfOk, OnOk, OnErr, IsSome, IfSome, IfNone};
ghost use Rattle.proof_log.specs.Spelling as spelling;
ghost use Rattle.proof_log.specs.Rounds.{closed};

use crate::writing;
use ground_form::Ground;
use log_form::{Indexes, Line, Lines};
use std::alloc::{AllocError, Global};
use std::marker::Model;
use std::mem;

/// A closed round.
pub struct Round {
    /// The ground problem.
    pub ground: Ground,
    /// The lines.
    pub lines: Lines,
    /// The parts of a model that the round is about, where it is about some.
    pub part: Indexes,
}

impl Drop for Round {
    fn drop(self) {
        let Round {
            ground: _,
            lines: _,
            part: _,
        } = self;
    }
}

/// The journal of a search.
pub struct Journal {
    alloc: Global,
    ground: Option<Ground>,
    lines: Vec<Line>,
    rounds: Vec<Round>,
}

impl Drop for Journal {
    fn drop(self) {
        let Journal {
            alloc: _,
            ground: _,
            lines: _,
            rounds: _,
        } = self;
    }
}

impl Model for Journal {
    ghost use Rattle.proof_log.specs.Rounds.{Journal as AJournal};

    ghost Value = { AJournal };

    ghost view = { λ r. record { ground = r.ground; lines = r.lines.items; rounds = r.rounds.items } };
}

impl Journal {
    /// An empty journal. It takes no memory until something is kept.
    pub fn new(alloc: Global) -> Self
        ensures ground { result.ground ≡ None }
        ensures lines { result.lines ≡ [] }
        ensures rounds { result.rounds ≡ [] }
    {
        Journal {
            alloc,
            ground: None,
            lines: Vec::new(alloc),
            rounds: Vec::new(alloc),
        }
    }

    /// Adds a line to the present round. After want of memory the journal is as before.
    pub fn push(&mut self, line: Line) -> Result<(), AllocError>
        ensures ok { OnOk result (self.new.lines ≡ self.old.lines ++ line ∷ []) }
        ensures err { OnErr result (self.new.lines ≡ self.old.lines) }
        ensures ground { self.new.ground ≡ self.old.ground }
        ensures rounds { self.new.rounds ≡ self.old.rounds }
    {
        self.lines.push(line)?;
        Ok(())
    }

    /// Keeps the ground problem of the present round. It takes no memory.
    pub fn keep(&mut self, g: Ground)
        ensures ground { self.new.ground ≡ Some g }
        ensures lines { self.new.lines ≡ self.old.lines }
        ensures rounds { self.new.rounds ≡ self.old.rounds }
    {
        self.ground = Some(g);
    }

    /// The lines of the present round, in order.
    pub fn lines(&self) -> &[Line]
        ensures { result.now ≡ self.now.lines }
    {
        self.lines.as_slice()
    }

    /// The ground problem of the present round, where one was kept.
    pub fn ground(&self) -> Option<&Ground>
        ensures some { IfSome result (λ g. self.now.ground ≡ Some g.now) }
        ensures none { IfNone result (self.now.ground ≡ None) }
    {
        self.ground.as_ref()
    }

    /// The closed rounds, in order.
    pub fn rounds(&self) -> &[Round]
        ensures { result.now ≡ self.now.rounds }
    {
        self.rounds.as_slice()
    }

    /// The text of the present round's lines, each ended by one LF.
    pub fn text(&self) -> Result<Vec<u8>, AllocError>
        ensures { IfOk result (λ text. text.items ≡ spelling.lines_text self.now.lines) }
    {
        writing::lines_text(self.alloc, self.lines())
    }

    /// Closes the present round, which has a ground problem, and begins an empty one. After want of
    /// memory the journal is as before.
    pub fn close_round(&mut self) -> Result<(), AllocError>
        requires { IsSome self.old.ground }
        ensures ok { OnOk result (self.new ≡ closed self.old.ground self.old []) }
        ensures err { OnErr result (self.new ≡ self.old) }
    {
        self.close_part(Vec::new(self.alloc))
    }

    /// The same, with the parts of a model that the round is about.
    pub fn close_part(&mut self, part: Vec<u32>) -> Result<(), AllocError>
        requires { IsSome self.old.ground }
        ensures ok { OnOk result (self.new ≡ closed self.old.ground self.old part.items) }
        ensures err { OnErr result (self.new ≡ self.old) }
    {
        self.rounds.reserve(1)?;
        let Some(ground) = self.ground.take() else {
            unreachable!()
        };
        let lines = mem::replace(&mut self.lines, Vec::new(self.alloc));
        let round = Round {
            ground,
            lines: Lines::of(lines),
            part: Indexes::of(part),
        };
        match self.rounds.push(round) {
            Ok(()) => Ok(()),
            Err(_) => unreachable!(),
        }
    }
}
