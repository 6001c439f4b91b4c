//! Whether a clause is justified, and how long it takes to find out.
ghost use Rattle.ground_form.specs.WellMade.{IsWellMadeCon};

use ground_form::Con;
use rule_law::justified;
use signed_clause::{Clause, IntSet};
use std::rt::Runtime;
use test_clock::{Clock, is_long_enough, mean};

/// How many times in a row it is found that the constraint justifies the clause.
pub(crate) fn count_justified(con: &Con, domains: &[IntSet], clause: &Clause, times: u32) -> u32
    requires { IsWellMadeCon domains.now con.now }
{
    let mut count = 0u32;
    for _ in 0..times {
        if justified(con, domains, clause) {
            count = count.saturating_add(1);
        }
    }
    count
}

/// How many nanoseconds a call takes, over so many calls that they take 50 milliseconds or so.
pub(crate) fn nanoseconds<R: Runtime>(
    rt: &R,
    con: &Con,
    domains: &[IntSet],
    clause: &Clause,
) -> u128
    requires { IsWellMadeCon domains.now con.now }
{
    let mut times = 1u32;
    for _ in 0..24u32 {
        let clock = Clock::start(rt);
        count_justified(con, domains, clause, times);
        let spent = clock.passed(rt);
        if is_long_enough(spent, times) {
            return mean(spent, u64::from(times));
        }
        times = times.saturating_mul(2);
    }
    0
}
