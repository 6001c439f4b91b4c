// How much one call of a desk in memory handles: all that it is given, or as much as the desk's
// step.
ghost use Rattle.std.specs.Prelude.{◌≡◌, ◌<◌, ◌≤◌, ◌-◌, ℕ, length, take, drop, min};
ghost use Rattle.std.specs.Option.{ForSome};
ghost use Rattle.desk_io.specs.Desk.{ReadsAt};
ghost use Rattle.desk_io.specs.Piece.{handled};

/// How many of `length` bytes a call handles.
pub fn bytes_handled(step: Option<u32>, length: usize) -> usize
    ensures { result ≡ handled step length }
{
    match step {
        None => length,
        Some(step) => length.min(step as usize),
    }
}

// Copies `n` bytes of a file from a place on into the front of `buf`.
fn copy_piece(file: &[u8], at: u64, n: usize, buf: &mut [u8])
    requires some { 0 < n }
    requires room { n ≤ length buf.old }
    requires there { n ≤ length file.now - at }
    ensures { take n buf.new ≡ take n (drop at file.now) }
{
    let at = at as usize;
    buf[..n].copy_from_slice(&file[at..at + n]);
}

/// Copies bytes of a file from a place on into the front of `buf`, and says how many.
pub fn read_piece(file: &[u8], at: u64, step: Option<u32>, buf: &mut [u8]) -> usize
    requires room { 0 < length buf.old }
    requires moves { ForSome step (λ most. 0 < most) }
    ensures amount { result ≡ handled step (min (length buf.old) (length file.now - at)) }
    ensures count { result ≤ length buf.new }
    ensures bytes { ReadsAt file.now at result buf.new }
{
    if at >= file.len() as u64 {
        return 0;
    }
    let n = bytes_handled(step, buf.len().min(file.len() - at as usize));
    copy_piece(file, at, n, buf);
    n
}
