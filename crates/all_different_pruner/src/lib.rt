//! The part of `pack_prop` for variables that differ, by Hall intervals.
//!
//! If more boxes lie within an interval than it has numbers, no values differ (it is crowded); if
//! as many do, they use it up, and every other box loses it (it is full: Hall 1935). It is enough
//! to begin where some box begins, and a box with as many numbers as there are variables lies in
//! no interval that matters. So for each narrow box two rows of counters are filled, where boxes
//! begin and where they end, and one sweep over them shows all intervals from there: narrow boxes
//! times variables, and a single walk where no box is narrow. The explanation is that the boxes of
//! the interval lie in it.
//!
//! Puget (1998) and Lopez-Ortiz et al. (2003) do it in n log n by sorted bounds; here nothing is
//! sorted, since most calls find no narrow box. Explanations: Downing, Feydy and Stuckey (2012).
//!
//! - `prune`: `AllDifferent`, what it answers, and what it keeps between calls.
//! - `hall_intervals`: finds crowded and full intervals with the counters of `counters`.
//! - `single_values`: values that a variable has alone, which is looked for first.
//! - `explain`: says why, by the boxes within them. `interval`: answers small questions.
#![tactic(auto)]

mod counters;
mod explain;
mod hall_intervals;
mod interval;
mod prune;
mod single_values;

pub use prune::AllDifferent;
