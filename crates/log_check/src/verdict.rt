//! What accepted lines show.
ghost use Rattle.std.specs.Prelude.{◌≡◌, Some, None, IfSome, IfNone};
ghost use Rattle.log_check.specs.Kinds.{kind_of, shown_of};

use log_form::Values;
use std::marker::Model;

/// What accepted lines show.
#[derive(Clone, Copy, Debug, PartialEq, Eq)]
pub enum VerdictKind {
    /// The values found last solve the problem, and none are better.
    Best,
    /// There is no solution.
    NoSolution,
    /// Neither is shown.
    Open,
}

/// The verdict of accepted lines. Only the checker makes one.
pub struct Verdict {
    closed: bool,
    found: Option<Values>,
}

impl Drop for Verdict {
    fn drop(self) {
        let Verdict {
            closed: _,
            found: _,
        } = self;
    }
}

impl Model for Verdict {
    ghost use Rattle.log_check.specs.Verdicts.{Ending};

    ghost Value = { Ending };

    ghost view = { λ v. record { closed = v.closed; found = v.found } };
}

impl Verdict {
    /// The verdict, by whether the empty clause was made and what was found last.
    pub(crate) fn of(closed: bool, found: Option<Values>) -> Self
        ensures { result ≡ record { closed = closed; found = found } }
    {
        Verdict { closed, found }
    }

    /// Which it is.
    pub fn kind(&self) -> VerdictKind
        ensures { result ≡ kind_of (shown_of self.now) }
    {
        if !self.closed {
            VerdictKind::Open
        } else if self.found.is_some() {
            VerdictKind::Best
        } else {
            VerdictKind::NoSolution
        }
    }

    /// The values of the last Found line.
    pub fn values(&self) -> Option<&[i64]>
        ensures some { IfSome result (λ a. self.now.found ≡ Some a.now) }
        ensures none { IfNone result (self.now.found ≡ None) }
    {
        match &self.found {
            Some(values) => Some(values.items()),
            None => None,
        }
    }
}
