//! Models that rules write. `series SEED COUNT DEPTH` writes so many models, with rules within
//! rules at most so deep, and compares each with its ground problem at every configuration. It asks
//! for how many models there are, how many configurations, and how many of these satisfy their
//! model.
use crate::comparing::{Compared, compare, compared_text};
use crate::rules::{Rule, rules_of};
use crate::writing::write;
use std::alloc::{AllocError, Global};
use test_case_files::{Case, Subject, number_at, words_of};
use test_problems::Random;

/// What is asked of models that rules write.
#[derive(Drop)]
pub(crate) struct Series {
    /// The rules, as a text.
    rules: Vec<u8>,
}

/// What a series has come to.
#[derive(Drop)]
struct Sums {
    /// Models that were compared.
    models: u64,
    /// Their configurations.
    configurations: u64,
    /// Those that satisfy their model.
    satisfied: u64,
    /// Models that have too many configurations.
    large: u64,
    /// What came out otherwise first.
    unlike: Option<String>,
}

impl Sums {
    /// Nothing yet.
    fn new() -> Sums {
        Sums {
            models: 0,
            configurations: 0,
            satisfied: 0,
            large: 0,
            unlike: None,
        }
    }

    /// Adds what came of a model.
    fn add(&mut self, alloc: Global, text: &str, compared: &Compared) -> Result<(), AllocError> {
        match compared {
            Compared::Alike(count, right) => {
                self.models = self.models.saturating_add(1);
                self.configurations = self.configurations.saturating_add(*count);
                self.satisfied = self.satisfied.saturating_add(*right);
            }
            Compared::TooMany => self.large = self.large.saturating_add(1),
            Compared::Refused | Compared::Unlike(_, _) => {
                let told = compared_text(alloc, compared)?;
                self.unlike = Some(format!(in alloc; "{told}: {text}")?);
            }
        }
        Ok(())
    }
}

/// A model that rules write.
fn model_of(
    alloc: Global,
    random: &mut Random,
    rules: &[Rule<'_>],
    depth: u32,
) -> Result<String, AllocError> {
    let mut text = String::new(alloc);
    write(random, rules, "$MODEL", "", depth, &mut text)?;
    Ok(text)
}

/// What so many models come to, up to the first that comes out otherwise.
fn sums_of(
    alloc: Global,
    rules: &[Rule<'_>],
    seed: u32,
    count: u32,
    depth: u32,
) -> Result<Sums, AllocError> {
    let mut random = Random::of(u64::from(seed));
    let mut sums = Sums::new();
    for _ in 0..count {
        let text = model_of(alloc, &mut random, rules, depth)?;
        sums.add(alloc, &text, &compare(alloc, text.as_bytes())?)?;
        if sums.unlike.is_some() {
            break;
        }
    }
    Ok(sums)
}

/// What a series has come to, as a text.
fn sums_text(alloc: Global, sums: &Sums) -> Result<String, AllocError> {
    let (models, large) = (sums.models, sums.large);
    let (count, right) = (sums.configurations, sums.satisfied);
    match &sums.unlike {
        Some(told) => format!(in alloc; "{told}"),
        None => format!(in alloc;
            "{models} models, {count} configurations, {right} satisfied, {large} too large"
        ),
    }
}

impl Series {
    /// Of rules in a text.
    pub(crate) fn new(rules: Vec<u8>) -> Series {
        Series { rules }
    }
}

impl Subject for Series {
    fn answer(&mut self, alloc: Global, case: &Case<'_>) -> Result<String, AllocError> {
        let words = words_of(alloc, &case.text)?;
        let rules = rules_of(alloc, &self.rules)?;
        let (seed, count) = (number_at(&words, 0), number_at(&words, 1));
        if case.ask == "text" {
            let mut random = Random::of(u64::from(seed));
            return model_of(alloc, &mut random, &rules, number_at(&words, 1));
        }
        let sums = sums_of(alloc, &rules, seed, count, number_at(&words, 2))?;
        sums_text(alloc, &sums)
    }
}
