//! `Table`, all that watches keep.

use crate::counts::Counts;
use crate::held::HeldBy;
use crate::packed::PackedClause;
use crate::rests::Rests;
use crate::row::Row;
use crate::work_list::WorkList;
use signed_clause::ClauseHandle;
use std::alloc::Global;

/// All that watches keep.
#[derive(Drop)]
pub(crate) struct Table {
    /// Where packed clauses take their memory.
    pub(crate) alloc: Global,
    /// The clauses in the order in which they were added, each with its number.
    pub(crate) added: Vec<(u64, ClauseHandle)>,
    /// The literals of each once more.
    pub(crate) packed: Vec<PackedClause>,
    /// What is known of each.
    pub(crate) rests: Rests,
    /// For each variable the clauses that it watches.
    pub(crate) rows: Vec<Row>,
    /// For each variable the least value of its domain.
    pub(crate) leasts: Vec<i64>,
    /// For each variable the clauses that came to rest by its literal alone.
    pub(crate) held: Vec<HeldBy>,
    /// The variables that were noted and whose rows weren't walked since.
    pub(crate) changed: WorkList,
    /// What has been done.
    pub(crate) counts: Counts,
}
