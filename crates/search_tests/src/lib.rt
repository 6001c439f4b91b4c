//! Tests of the search, against enumeration and a plain replay of its runs. They are of what no
//! clause says. There is no code here.
//!
//! Random small problems are searched, and what comes of it is compared with what plain definitions
//! say: the answer with a look at every point (`test_small_problems`), the lines with a run whose
//! boxes are copied whole at each level (`test_plain_runs`).
//!
//! - `given`: given problems. `features`: what random problems are to have.
//! - `choosing`: a chooser by the greatest value.
//! - `trial`: one search, and what is compared. `series`: many of them.
//! - `generated_tests`: series of random problems. `given_tests`: given ones, and their answers.
#![tactic(auto)]

#[cfg(test)]
mod choosing;
#[cfg(test)]
mod features;
#[cfg(test)]
mod generated_tests;
#[cfg(test)]
mod given;
#[cfg(test)]
mod given_tests;
#[cfg(test)]
mod series;
#[cfg(test)]
mod trial;
