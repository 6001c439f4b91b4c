//! Series of random problems.
use crate::features::{Feature, count_with};
use crate::series::{Budgets, Series, Source, Tally, run, run_plainly};
use ground_form::Kind;
use std::alloc::AllocError;
use test_plain_runs::Way;

/// So many random problems from a seed on, searched in one way with enough decisions.
fn series(first: u64, count: u64, way: Way) -> Series {
    Series {
        source: Source::Random,
        first,
        count,
        way,
        budgets: Budgets::Ample,
        leaves_out: false,
    }
}

/// Whether nothing was wrong, and the problems weren't all easy.
fn is_right(tally: &Tally, count: u64) -> bool {
    tally.wrong.is_none()
        && tally.closed == count
        && tally.spent == 0
        && tally.solved > count / 4
        && tally.decisions > count / 2
        && tally.learnt > count / 2
}

#[test]
fn answers_and_lines_are_right(rt: HostRuntime) -> Result<(), AllocError> {
    let alloc = rt.alloc();
    let tally = run(alloc, series(0, 2000, Way::First))?;
    assert!(rt; is_right(&tally, 2000), "{tally:?}");
    Ok(())
}

#[test]
fn they_are_in_each_way(rt: HostRuntime) -> Result<(), AllocError> {
    let alloc = rt.alloc();
    for (first, way) in [
        (2000, Way::Small),
        (3000, Way::Former),
        (4000, Way::Greatest),
    ] {
        let tally = run(alloc, series(first, 700, way))?;
        assert!(rt; is_right(&tally, 700), "{way:?} {tally:?}");
    }
    Ok(())
}

#[test]
fn budgets_are_kept(rt: HostRuntime) -> Result<(), AllocError> {
    let alloc = rt.alloc();
    for (first, way) in [(5000, Way::First), (6000, Way::Greatest)] {
        let tight = Series {
            budgets: Budgets::Tight,
            ..series(first, 300, way)
        };
        let tally = run(alloc, tight)?;
        assert!(rt;
            tally.wrong.is_none() && tally.spent > 100,
            "{way:?} {tally:?}"
        );
    }
    Ok(())
}

#[test]
fn plain_probing_alone_serves(rt: HostRuntime) -> Result<(), AllocError> {
    let alloc = rt.alloc();
    let problems = series(7000, 500, Way::First);
    let one = run(alloc, problems)?;
    let other = run_plainly(alloc, problems)?;
    assert!(rt;
        is_right(&one, 500) && is_right(&other, 500),
        "{one:?} {other:?}"
    );
    assert!(rt;
        one.solved == other.solved && other.axioms > 500,
        "{one:?} {other:?}"
    );
    Ok(())
}

/// What some of the problems are to have.
const FEATURES: [Feature; 16] = [
    Feature::OfKind(Kind::LinLe),
    Feature::OfKind(Kind::LinDef),
    Feature::OfKind(Kind::ReifLe),
    Feature::OfKind(Kind::AndDef),
    Feature::OfKind(Kind::MemberDef),
    Feature::OfKind(Kind::EqDef),
    Feature::OfKind(Kind::ElementDef),
    Feature::OfKind(Kind::CondDef),
    Feature::OfKind(Kind::ClauseCon),
    Feature::OfKind(Kind::AllDiff),
    Feature::OfKind(Kind::Pack),
    Feature::EmptyDomain,
    Feature::Repeat,
    Feature::NegativeCoefficient,
    Feature::SeveralGoals,
    Feature::Defined,
];

#[test]
fn problems_are_of_all_sorts(rt: HostRuntime) -> Result<(), AllocError> {
    for feature in FEATURES {
        let count = count_with(rt.alloc(), 400, feature)?;
        assert!(rt; count >= 12, "{feature:?} {count}");
    }
    Ok(())
}

/// A replay that took everything would show nothing.
#[test]
fn few_lines_can_be_left_out(rt: HostRuntime) -> Result<(), AllocError> {
    let problems = Series {
        leaves_out: true,
        ..series(8000, 200, Way::First)
    };
    let tally = run(rt.alloc(), problems)?;
    assert!(rt;
        tally.lines > 1000 && tally.lines - tally.needed.min(tally.lines) < tally.lines / 20,
        "{tally:?}"
    );
    Ok(())
}
