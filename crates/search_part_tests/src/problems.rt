//! Generated problems over all kinds of constraints. The first variables have the values 0 to 3,
//! and the last ones are flags.
use crate::given::set_of_bits;
use ground_form::{Con, Cons, Domains, Goals, Ground, PackItems, Parts, Terms, VarList};
use signed_clause::Clause;
use std::alloc::{AllocError, Global};
use test_problems::{Random, sets_of};

/// How many variables have the values 0 to 3.
const WIDE: u32 = 5;

/// How many variables are flags.
const FLAGS: u32 = 3;

/// How many variables there are.
pub(crate) const VARIABLES: u32 = 8;

/// A variable of the values 0 to 3.
fn wide(numbers: &mut Random) -> u32 {
    numbers.below(WIDE)
}

/// A flag.
fn flag(numbers: &mut Random) -> u32 {
    WIDE + numbers.below(FLAGS)
}

/// A coefficient, -2 to 2.
fn coefficient(numbers: &mut Random) -> i64 {
    numbers.below(5) as i64 - 2
}

/// A term.
fn term(numbers: &mut Random) -> (i64, u32) {
    let factor = coefficient(numbers);
    (factor, wide(numbers))
}

/// Three terms.
fn terms(alloc: Global, numbers: &mut Random) -> Result<Terms, AllocError> {
    let first = term(numbers);
    let second = term(numbers);
    let third = term(numbers);
    Ok(Terms::of(vec![in alloc; first, second, third]?))
}

/// Three items, of the values 0 to 2.
fn items(alloc: Global, numbers: &mut Random) -> Result<Terms, AllocError> {
    let first = wide(numbers);
    let second = wide(numbers);
    let third = wide(numbers);
    Ok(Terms::of(vec![in alloc; (0, first), (1, second), (2, third)]?))
}

/// A part.
fn part(numbers: &mut Random) -> (u32, bool) {
    let wanted = numbers.below(2) == 1;
    (flag(numbers), wanted)
}

/// Two parts.
fn parts(alloc: Global, numbers: &mut Random) -> Result<Parts, AllocError> {
    let first = part(numbers);
    let second = part(numbers);
    Ok(Parts::of(vec![in alloc; first, second]?))
}

/// A clause of two literals.
fn clause(alloc: Global, numbers: &mut Random) -> Result<Clause, AllocError> {
    let x = numbers.below(WIDE - 1);
    let first = set_of_bits(alloc, 1 + numbers.below(7))?;
    let second = set_of_bits(alloc, 1 + numbers.below(7))?;
    match Clause::of(vec![in alloc; (x, first), (x + 1, second)]?) {
        Ok(clause) => Ok(clause),
        Err(_) => Err(AllocError),
    }
}

/// Three variables.
fn vars(alloc: Global, numbers: &mut Random) -> Result<VarList, AllocError> {
    let x = numbers.below(WIDE - 2);
    Ok(VarList::of(vec![in alloc; x, x + 1, x + 2]?))
}

/// An item of that room.
fn pack_item(numbers: &mut Random, room: u32) -> (u32, u32, u32) {
    let place = flag(numbers);
    (place, wide(numbers), room)
}

/// Three items of places, sizes and one room.
fn pack_items(alloc: Global, numbers: &mut Random) -> Result<PackItems, AllocError> {
    let room = wide(numbers);
    let first = pack_item(numbers, room);
    let second = pack_item(numbers, room);
    let third = pack_item(numbers, room);
    Ok(PackItems::of(vec![in alloc; first, second, third]?))
}

/// A constraint of sums, or one without a definition.
fn sum(alloc: Global, kind: u32, numbers: &mut Random) -> Result<Con, AllocError> {
    let bound = coefficient(numbers);
    Ok(match kind {
        0 | 1 => Con::LinLe {
            terms: terms(alloc, numbers)?,
            bound,
        },
        2 => Con::LinDef {
            out: wide(numbers),
            terms: terms(alloc, numbers)?,
            offset: bound,
        },
        3 => Con::ReifLe {
            flag: flag(numbers),
            terms: terms(alloc, numbers)?,
            bound,
        },
        4 => Con::of_clause(alloc, clause(alloc, numbers)?)?,
        5 => Con::AllDiff {
            vars: vars(alloc, numbers)?,
        },
        _ => Con::Pack {
            items: pack_items(alloc, numbers)?,
        },
    })
}

/// A constraint that defines a flag or a variable by others.
fn definition(alloc: Global, kind: u32, numbers: &mut Random) -> Result<Con, AllocError> {
    let flag_var = flag(numbers);
    let out = wide(numbers);
    Ok(match kind {
        0 => Con::AndDef {
            flag: flag_var,
            parts: parts(alloc, numbers)?,
        },
        1 => Con::MemberDef {
            flag: flag_var,
            var: out,
            set: set_of_bits(alloc, numbers.below(16))?,
        },
        2 => Con::EqDef {
            flag: flag_var,
            left: out,
            right: wide(numbers),
        },
        3 => Con::ElementDef {
            out,
            index: wide(numbers),
            items: items(alloc, numbers)?,
        },
        _ => Con::CondDef {
            out,
            flag: flag_var,
            item: wide(numbers),
        },
    })
}

/// The domains.
fn domains(alloc: Global) -> Result<Domains, AllocError> {
    let texts = [
        "0..3", "0..3", "0..3", "0..3", "0..3", "0..1", "0..1", "0..1",
    ];
    match sets_of(alloc, &texts) {
        Ok(sets) => Ok(Domains::of(sets)),
        Err(_) => Err(AllocError),
    }
}

/// The numbers of a seed.
pub(crate) fn numbers_of(seed: u64) -> Random {
    Random::of(seed.wrapping_mul(2_654_435_761))
}

/// A problem of so many constraints, half of them sums and the like, half of them definitions.
pub(crate) fn problem(
    alloc: Global,
    count: u32,
    numbers: &mut Random,
) -> Result<Ground, AllocError> {
    let mut cons = Vec::new(alloc);
    for k in 0..count {
        let kind = numbers.below(7);
        if k % 2 == 0 {
            cons.push(sum(alloc, kind, numbers)?)?;
        } else {
            cons.push(definition(alloc, kind, numbers)?)?;
        }
    }
    Ok(Ground {
        search: VARIABLES,
        domains: domains(alloc)?,
        cons: Cons::of(cons),
        goals: Goals::of(Vec::new(alloc)),
    })
}
