//! Tables of a site, from their texts: rows of cells, and what each column is.
//!
//! - `reading`: `records_of`, the records of a text.
//! - `grid`: `Row` and `Cell`, records with their numbers.
//! - `cells`: what stands in a cell: a name, an amount, parts.
//! - `columns`: what each column of the hosts and of the services is.
//! - `values`: the values of a column, each once.
//! - `fault`: what may be wrong, and where.
//!
//! Which records a text has stands in `specs/Grid`, what a column is in `specs/Columns`.
#![tactic(auto)]

mod cells;
mod columns;
mod fault;
mod grid;
mod reading;
mod values;

pub use cells::{is_amount, is_name, parts};
pub use columns::{
    HostColumn, ServiceColumn, column_of, host_column, host_columns, host_kind_at, resource_of,
    service_column, service_columns, service_kind_at,
};
pub use fault::{Fault, FaultKind, Place, TableName};
pub use grid::{Cell, Row, behind, grid_of, header, text_in};
pub use reading::{ReadError, records_of};
pub use values::{longest_at, values_at};
