//! Who searches for what is asked of a model: whoever has a kit and a chooser at hand.
ghost use Rattle.std.specs.Prelude.{◌≡◌, ◌≤◌};
ghost use Rattle.run_promise.specs.Answer.{place_of};

use bound_search::Limits;
use branch_choice::Chooser;
use conf_request::OrderName;
use ground_form::Ground;
use log_check::Verdict;
use model_search::find;
use proof_log::Journal;
use rule_law::Kit;
use run_finder::Finder;
use std::alloc::{AllocError, Global};

/// Where memory comes from, and a chooser for each of the orders first, small and former.
#[derive(Clone, Copy)]
pub struct Resources<'a> {
    pub alloc: Global,
    pub choosers: &'a [Chooser; 3],
}

/// The place of the chooser of this order.
pub(crate) fn place_of(order: OrderName) -> usize
    ensures place { result ≡ place_of order }
    ensures within { result ≤ 2 }
{
    match order {
        OrderName::First => 0,
        OrderName::Small => 1,
        OrderName::Former => 2,
    }
}

/// Searches by branch and bound, with a kit and a chooser of others. What the kit has cached is
/// kept from search to search.
#[derive(Drop)]
pub(crate) struct Searching<'a> {
    pub limits: Limits,
    pub kit: &'a mut Kit,
    pub chooser: &'a Chooser,
    /// Another order.
    pub spare: &'a Chooser,
    /// Whether searches may go on by it.
    pub may_turn: bool,
}

impl<'a> Finder for Searching<'a> {
    ghost allowed = { λ f. f.limits.budget };

    ghost order = { λ f. f.chooser.now.order };

    fn budget(&self) -> u32 {
        self.limits.budget
    }

    fn next_order(&mut self) -> bool {
        if self.may_turn {
            let other = self.spare;
            self.spare = self.chooser;
            self.chooser = other;
        }
        self.may_turn
    }

    fn find(
        &mut self,
        g: Ground,
        hints: &[Option<i64>],
        journal: &mut Journal,
    ) -> Result<Verdict, AllocError> {
        find(self.limits, self.kit, self.chooser, g, hints, journal)
    }
}
