//! The clause that the flag is 0, or one variable has a value that another's box has, or that other
//! is outside its box.
ghost use Rattle.std.specs.Prelude.{◌≡◌, ◌<◌, IfOk, length};
ghost use Rattle.rule_law.specs.Answers.{IsPruning};
ghost use Rattle.rule_law.specs.Reasons.{IsReason};
ghost use Rattle.rule_law.specs.Plans.{literals_of};
ghost use Rattle.element_prop.specs.Within.{within_plan};

use rule_law::{Subject, keep_out, pruning, truth};
use signed_clause::{Clause, IntSet};
use std::alloc::{AllocError, Global};

/// That clause, of the flag and the two variables.
///
/// # Errors
/// Want of memory.
pub fn explain_within(
    subject: Subject<'_>,
    flag: u32,
    var: u32,
    other: u32,
    alloc: Global,
) -> Result<Clause, AllocError>
    requires flag { flag < length subject.domains.now }
    requires var { var < length subject.domains.now }
    requires other { other < length subject.domains.now }
    requires size { length subject.boxes.now ≡ length subject.domains.now }
    requires reason { IsReason subject.con.now subject.domains.now subject.boxes.now
        (literals_of subject.domains.now
        (within_plan subject.domains.now subject.boxes.now flag var other)) }
    ensures pruning { IfOk result (λ c. IsPruning subject.entry.con.now
        subject.entry.domains.now subject.entry.boxes.now c) }
{
    let (con, domains, boxes) = (subject.con, subject.domains, subject.boxes);
    let outside = domains[var as usize].less(&boxes[other as usize])?;
    let mut literals = Vec::new(alloc);
    keep_out(
        &mut literals,
        flag,
        &domains[flag as usize],
        &truth(alloc, true),
    )?;
    keep_out(&mut literals, var, &domains[var as usize], &outside)?;
    keep_out(
        &mut literals,
        other,
        &domains[other as usize],
        &boxes[other as usize],
    )?;
    Ok(pruning(con, domains, boxes, literals))
}
