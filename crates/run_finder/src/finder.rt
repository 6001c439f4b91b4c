//! `Finder`, who finds a best solution of a ground problem and leaves a run behind.
ghost use Rattle.std.specs.Prelude.{◌≡◌, [], ℕ, true, None, Some, length, IfOk, OnOk};
ghost use Rattle.branch_choice.specs.declared.split.Order.{Order};
ghost use Rattle.ground_form.specs.WellMade.{IsWellMade};
ghost use Rattle.run_finder.specs.Searched.{HasSearched};
ghost use Rattle.run_law.specs.Ordered.{IsOrdered};
ghost use Rattle.run_law.specs.Replay.{is_run};

use ground_form::Ground;
use log_check::Verdict;
use proof_log::Journal;
use std::alloc::AllocError;

/// Something that finds a best solution of a ground problem within a budget of decisions.
pub trait Finder {
    // how many decisions a search of it may take
    ghost allowed: { Self → ℕ };

    // by which order it decides
    ghost order: { Self → Order };

    /// How many decisions a search of it may take. The answer never changes.
    fn budget(&self) -> u32
        ensures { result ≡ allowed self.now };

    /// From now on it decides by another order, where it has one; it answers whether it has.
    fn next_order(&mut self) -> bool
        ensures budget { allowed self.new ≡ allowed self.old };

    /// Searches for a best solution, and leaves problem and run in the present round of the
    /// journal. The round has neither yet, and `hints` has a value, or none, for each searched
    /// variable. The rounds before it stay as they are, after want of memory too.
    ///
    /// The verdict is that of the checker, which has read the run. It is open only where the search
    /// took as many decisions as it may, and a further one would be due.
    ///
    /// # Errors
    /// Want of memory; the present round then has some lines of a run, and may lack the problem.
    fn find(
        &mut self,
        g: Ground,
        hints: &[Option<i64>],
        journal: &mut Journal,
    ) -> Result<Verdict, AllocError>
        requires well_made { IsWellMade g }
        requires problem { journal.old.ground ≡ None }
        requires lines { journal.old.lines ≡ [] }
        requires hints { length hints.now ≡ g.search }
        ensures budget { allowed self.new ≡ allowed self.old }
        ensures problem { OnOk result (journal.new.ground ≡ Some g) }
        ensures run { is_run g journal.new.lines ≡ true }
        ensures ordered { IsOrdered g (order self.old) hints.now journal.new.lines }
        ensures searched { IfOk result (λ v.
            HasSearched g (allowed self.old) journal.new.lines v) }
        ensures rounds { journal.new.rounds ≡ journal.old.rounds };
}
