//! Reading an input to its end.
ghost use Rattle.std.specs.Prelude.{◌≡◌, ◌+◌, ◌≤◌, ◌<◌, [], length, take, IfSome, IfOk};
ghost use Rattle.std.specs.Prelude.{IsErrOf, OnOk, OnErr, vec_len};
ghost use Rattle.cfg_io.specs.Fault.{Rose};
ghost use Rattle.cfg_io.specs.Inner.{ReadAt};
ghost use Rattle.cfg_io.specs.Opened.{IsOpened};
ghost use Rattle.cfg_io.specs.Told.{Takes, TakesCount, TakesAtMost};
ghost use Rattle.cfg_io.specs.declared.reading.ReadEnd.TheVariants.{Read, Memory};

use crate::{Failed, Input};
use std::alloc::{AllocError, Global};
use thiserror::Error;

/// Why an input was not read whole.
#[derive(Clone, Copy, Debug, PartialEq, Eq, Error)]
pub enum ReadEnd {
    /// A read failed.
    #[error("a read failed")]
    Read,
    /// There are more bytes than the limit.
    #[error("there are more bytes than the limit")]
    OverLimit,
    /// There was not enough memory.
    #[error("out of memory")]
    Memory,
}

impl From<Failed> for ReadEnd {
    ghost from_gives = { λ _ e. e ≡ Read };

    fn from(_: Failed) -> Self {
        ReadEnd::Read
    }
}

impl From<AllocError> for ReadEnd {
    ghost from_gives = { λ _ e. e ≡ Memory };

    fn from(_: AllocError) -> Self {
        ReadEnd::Memory
    }
}

/// The largest limit of [`read_whole`] in bytes, 1 GiB.
pub const MAX_LIMIT: usize = 1_073_741_824;

/// How many bytes the buffer grows by at least.
const LEAST_GROWTH: usize = 65_536;

/// A buffer of n bytes grows by n divided by this, so that no more than that is made ready in vain.
const GROWTH_PART: usize = 8;

/// Reads the opened `input` to its end, and never takes more than `limit + 1` bytes of it.
///
/// The bytes that were taken before an error stay taken, and what is opened stays opened.
///
/// - [`ReadEnd::Read`]: a read failed.
/// - [`ReadEnd::OverLimit`]: `limit + 1` bytes were taken, so there are more than `limit`.
/// - [`ReadEnd::Memory`]: there is no memory for the bytes.
pub fn read_whole<I: Input>(alloc: Global, input: &mut I, limit: usize) -> Result<Vec<u8>, ReadEnd>
    requires is_opened { IsOpened (I.opened input.old) }
    requires small { limit ≤ MAX_LIMIT }

    ensures whole { IfOk result (λ bytes. Takes (I.rest input.old) bytes.items (I.rest input.new)) }
    ensures at_end { OnOk result (IfSome (I.rest input.new) (λ left. left ≡ [])) }
    ensures fits { IfOk result (λ bytes. vec_len bytes ≤ limit) }

    // It is over the limit exactly if it took one byte more than that.
    ensures over_limit { IsErrOf result ReadEnd.OverLimit
        → TakesCount (I.rest input.old) (limit + 1) (I.rest input.new) }
    ensures read { IsErrOf result ReadEnd.Read
        → TakesAtMost (I.rest input.old) limit (I.rest input.new) }
    ensures memory { IsErrOf result ReadEnd.Memory
        → TakesAtMost (I.rest input.old) limit (I.rest input.new) }

    ensures failed { IsErrOf result ReadEnd.Read → Rose (I.faults input.old) (I.faults input.new) }

    ensures never_falls { I.faults input.old ≤ I.faults input.new }
    ensures stays_opened { I.opened input.new ≡ I.opened input.old }
    ensures tells_as_before { I.tells_path input.new ≡ I.tells_path input.old }
{
    let mut buffer = Vec::new(alloc);
    let mut filled = 0;
    while filled <= limit {
        let n = read_piece(input, &mut buffer, filled, limit)?;
        if n == 0 {
            buffer.truncate(filled);
            return Ok(buffer);
        }
        filled += n;
    }
    Err(ReadEnd::OverLimit)
}

// Reads once into `buffer` after its first `filled` bytes, and answers how many bytes came.
fn read_piece<I: Input>(
    input: &mut I,
    buffer: &mut Vec<u8>,
    filled: usize,
    limit: usize,
) -> Result<usize, ReadEnd>
    requires is_opened { IsOpened (I.opened input.old) }
    requires small { limit ≤ MAX_LIMIT }
    requires below { filled ≤ limit }
    requires filled_part { filled ≤ vec_len buffer.old }
    requires buffer_fits { vec_len buffer.old ≤ limit + 1 }

    ensures piece { ReadAt filled buffer.old.items buffer.new.items
        (I.rest input.old) (I.rest input.new) result }
    ensures buffer_fits { vec_len buffer.new ≤ limit + 1 }
    ensures in_limit { IsErrOf result ReadEnd.OverLimit → ⊥ }
    ensures failed { IsErrOf result ReadEnd.Read → Rose (I.faults input.old) (I.faults input.new) }
    ensures never_falls { I.faults input.old ≤ I.faults input.new }
    ensures stays_opened { I.opened input.new ≡ I.opened input.old }
    ensures tells_as_before { I.tells_path input.new ≡ I.tells_path input.old }
{
    make_room(buffer, filled, limit)?;
    Ok(read_at(input, buffer.as_mut_slice(), filled)?)
}

// Reads once into `buffer` from its place `at` on.
fn read_at<I: Input>(input: &mut I, buffer: &mut [u8], at: usize) -> Result<usize, Failed>
    requires is_opened { IsOpened (I.opened input.old) }
    requires has_room { at < length buffer.old }

    ensures piece { ReadAt at buffer.old buffer.new (I.rest input.old) (I.rest input.new) result }
    ensures failed { OnErr result (Rose (I.faults input.old) (I.faults input.new)) }
    ensures never_falls { I.faults input.old ≤ I.faults input.new }
    ensures stays_opened { I.opened input.new ≡ I.opened input.old }
    ensures tells_as_before { I.tells_path input.new ≡ I.tells_path input.old }
{
    input.read(&mut buffer[at..])
}

// Makes `buffer` longer than `filled`, and `limit + 1` bytes long at most.
fn make_room(buffer: &mut Vec<u8>, filled: usize, limit: usize) -> Result<(), AllocError>
    requires small { limit ≤ MAX_LIMIT }
    requires below { filled ≤ limit }
    requires filled_part { filled ≤ vec_len buffer.old }
    requires buffer_fits { vec_len buffer.old ≤ limit + 1 }

    ensures has_room { OnOk result (filled < vec_len buffer.new) }
    ensures buffer_fits { vec_len buffer.new ≤ limit + 1 }
    ensures keeps { take filled buffer.new.items ≡ take filled buffer.old.items }
{
    if filled < buffer.len() {
        return Ok(());
    }
    let growth = (filled / GROWTH_PART).max(LEAST_GROWTH);
    buffer.resize((filled + growth).min(limit + 1), 0)
}
