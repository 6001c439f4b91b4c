//! The records of a text.
ghost use Rattle.std.specs.Prelude.{◌≡◌, IfOk, IfErr, OnOk, IsUtf8, map};
ghost use Rattle.csv.specs.Reading.{AreRecords, default_config, strip_bom};
ghost use Rattle.csv.specs.Records.{fields_of};
ghost use Rattle.csv.specs.declared.parser.State.TheVariants as st;
ghost use Rattle.site_tables.specs.Grid.{IsUnread};

use csv::{ByteRecord, ReaderBuilder};
use std::alloc::{AllocError, Global};
use std::str;

/// Why a text gave no records.
#[derive(Clone, Copy, Debug, PartialEq, Eq)]
pub enum ReadError {
    /// It isn't UTF-8.
    NotText,
    /// There was no memory.
    Memory,
}

impl From<AllocError> for ReadError {
    ghost use Rattle.site_tables.specs.declared.reading.ReadError.TheVariants.{Memory};

    ghost from_gives = { λ _ e. e ≡ Memory };

    fn from(_: AllocError) -> Self {
        ReadError::Memory
    }
}

/// The records of bytes, whatever they are.
fn records_in(alloc: Global, text: &[u8]) -> Result<Vec<ByteRecord>, AllocError>
    ensures { IfOk result (λ v. AreRecords default_config st.StartRecord (strip_bom text.now)
        (map fields_of v.items)) }
{
    let rdr = ReaderBuilder::new()
        .has_headers(false)
        .flexible(true)
        .from_reader(alloc, text);
    let mut rows = Vec::new(alloc);
    for row in rdr.into_byte_records() {
        match row {
            Ok(row) => rows.push(row)?,
            Err(_) => return Err(AllocError),
        }
    }
    Ok(rows)
}

/// The records of a text of UTF-8, with a byte order mark or without; of any numbers of fields.
/// Lines without anything are none.
pub fn records_of(alloc: Global, text: &[u8]) -> Result<Vec<ByteRecord>, ReadError>
    ensures records { IfOk result (λ v. AreRecords default_config st.StartRecord
        (strip_bom text.now) (map fields_of v.items)) }
    ensures text { OnOk result (IsUtf8 text.now) }
    ensures refused { IfErr result (IsUnread text.now) }
{
    if str::from_utf8(text).is_err() {
        return Err(ReadError::NotText);
    }
    Ok(records_in(alloc, text)?)
}
