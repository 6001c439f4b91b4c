// Files that are kept as a list of names and bytes. Where a name stands twice, the first of the two
// is the file.
ghost use Rattle.std.specs.Prelude.{◌≡◌, ◌<◌, ℕ, [], List, length, OnOk, OnErr, IfSome, Some};
ghost use Rattle.std.specs.Option.{option_map};
ghost use Rattle.desk_io.specs.Desk.{with_file, with_more};
ghost use Rattle.desk_io.specs.FileList.{stored, place_in};

use std::alloc::{AllocError, Global};

/// The name of a file and its bytes.
pub type StoredFile = (String, Vec<u8>);

// The place of the first file of that name.
fn place_of(files: &[StoredFile], name: &str) -> Option<usize>
    ensures place { result ≡ place_in name.now files.now }
    ensures within { IfSome result (λ place. place < length files.now) }
{
    for (place, file) in files.iter().enumerate() {
        if file.0.as_str() == name {
            return Some(place);
        }
    }
    None
}

/// The bytes of a file.
pub fn bytes_of<'a>(files: &'a [StoredFile], name: &str) -> Option<&'a [u8]>
    ensures { option_map (λ bytes. bytes.now) result ≡ stored files.now name.now }
{
    for file in files {
        if file.0.as_str() == name {
            return Some(file.1.as_slice());
        }
    }
    None
}

/// Makes a file empty, or makes an empty file.
pub fn make_empty(alloc: Global, files: &mut Vec<StoredFile>, name: &str) -> Result<(), AllocError>
    ensures ok { OnOk result (stored files.new.items
        ≡ with_file name.now [] (stored files.old.items)) }
    ensures err { OnErr result (stored files.new.items ≡ stored files.old.items) }
{
    match place_of(files, name) {
        Some(place) => files[place].1.clear(),
        None => files.push((String::from_str(alloc, name)?, Vec::new(alloc)))?,
    }
    Ok(())
}

/// Adds bytes at a file's end, or makes the file.
pub fn add_bytes(
    alloc: Global,
    files: &mut Vec<StoredFile>,
    name: &str,
    piece: &[u8],
) -> Result<(), AllocError>
    ensures ok { OnOk result (stored files.new.items ≡ with_more name.now piece.now
        (stored files.old.items)) }
    ensures err { OnErr result (stored files.new.items ≡ stored files.old.items) }
{
    match place_of(files, name) {
        Some(place) => files[place].1.extend_from_slice(piece)?,
        None => files.push((String::from_str(alloc, name)?, piece.to_vec(alloc)?))?,
    }
    Ok(())
}
