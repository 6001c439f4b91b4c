//! Given problems, and what is to come of them.
use crate::given::{
    AT_LEAST_TWO, CONSTANTS, CROWDED, FIRST_GOAL, FITTING, FLAGS, GREATEST, LESS, NO_VALUE,
    OPPOSED, OVERFULL, SECOND_GOAL, TWO_GOALS, UNEQUAL,
};
use crate::series::{Budgets, Series, Source, Tally, run, run_plainly};
use std::alloc::AllocError;
use test_plain_runs::Way;
use test_small_problems::{Row, least_value};

/// What is to be found last: the values of the first variables.
#[derive(Clone, Copy, Debug)]
enum Found {
    Nothing,
    One(i64),
    Two(i64, i64),
}

/// Problems, how a search decides, how often it may, whether it closes, and what it finds last.
const WANTED: [(u64, Way, u32, bool, Found); 20] = [
    (UNEQUAL, Way::First, 0, false, Found::Nothing),
    (UNEQUAL, Way::First, 3, true, Found::Two(0, 1)),
    (UNEQUAL, Way::Greatest, 3, true, Found::Two(1, 0)),
    (LESS, Way::First, 0, true, Found::Two(0, 1)),
    (AT_LEAST_TWO, Way::First, 0, false, Found::Nothing),
    (AT_LEAST_TWO, Way::First, 1, true, Found::One(2)),
    (FIRST_GOAL, Way::Small, 15, true, Found::Two(3, 1)),
    (FIRST_GOAL, Way::Greatest, 2, true, Found::Two(3, 1)),
    (SECOND_GOAL, Way::First, 15, true, Found::Two(1, 3)),
    (OPPOSED, Way::First, 3, true, Found::One(3)),
    (CONSTANTS, Way::First, 0, true, Found::Two(1, 2)),
    (TWO_GOALS, Way::First, 3, true, Found::Two(1, 1)),
    (TWO_GOALS, Way::Greatest, 2, true, Found::Two(1, 1)),
    (GREATEST, Way::First, 1, false, Found::One(0)),
    (GREATEST, Way::Greatest, 1, true, Found::One(9)),
    (CROWDED, Way::First, 0, true, Found::Nothing),
    (OVERFULL, Way::First, 0, true, Found::Nothing),
    (FITTING, Way::First, 3, true, Found::Two(1, 2)),
    (NO_VALUE, Way::First, 0, true, Found::Nothing),
    (FLAGS, Way::First, 0, true, Found::Two(0, 1)),
];

/// Whether this was found last.
fn is_found(point: &Option<Row>, found: Found) -> bool {
    match (point, found) {
        (None, Found::Nothing) => true,
        (Some(at), Found::One(v)) => least_value(at.get(0)) == v,
        (Some(at), Found::Two(v, w)) => {
            least_value(at.get(0)) == v && least_value(at.get(1)) == w
        }
        _ => false,
    }
}

/// Whether nothing was wrong, the search closed or not as is wanted, and found this last.
fn is_as_wanted(tally: &Tally, closed: bool, found: Found) -> bool {
    is_found(&tally.found, found)
        && tally.wrong.is_none()
        && (tally.closed == 1) == closed
        && (tally.spent == 0) == closed
}

/// A given problem, searched once.
fn once(number: u64, way: Way, budget: u32) -> Series {
    Series {
        source: Source::Given,
        first: number,
        count: 1,
        way,
        budgets: Budgets::Only(budget),
        leaves_out: false,
    }
}

#[test]
fn given_problems_have_their_answers(rt: HostRuntime) -> Result<(), AllocError> {
    let alloc = rt.alloc();
    for (number, way, budget, closed, found) in WANTED {
        let tally = run(alloc, once(number, way, budget))?;
        assert!(rt;
            is_as_wanted(&tally, closed, found),
            "{number} {way:?} {tally:?}"
        );
    }
    Ok(())
}

#[test]
fn an_own_propagator_and_an_own_order_serve(rt: HostRuntime) -> Result<(), AllocError> {
    let alloc = rt.alloc();
    let tally = run_plainly(alloc, once(FLAGS, Way::Greatest, 0))?;
    assert!(rt; is_as_wanted(&tally, true, Found::Two(0, 1)), "{tally:?}");
    assert!(rt; tally.axioms != 0, "{tally:?}");
    Ok(())
}
