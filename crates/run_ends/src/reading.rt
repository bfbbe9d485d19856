//! Reading the file that is asked for.

ghost use Rattle.std.specs.Prelude.{◌≡◌, ◌+◌, ◌≤◌, ◌⊎◌, [], length};
ghost use Rattle.std.specs.Prelude.{IfSome, IfOk, IsErrOf, OnOk};
ghost use Rattle.cfg_io.specs.Fault.{Rose};
ghost use Rattle.cfg_io.specs.Opened.{Nothing, Something, told_path};
ghost use Rattle.cfg_io.specs.Told.{Takes, TakesCount, TakesAtMost};

use cfg_io::{Failed, Input, MAX_LIMIT, ReadEnd, read_whole};
use std::alloc::Global;

/// The largest file that is read, in bytes: 64 MiB.
pub const FILE_LIMIT: usize = 67_108_864;

/// Why a file was not read.
#[derive(Clone, Copy, Debug, PartialEq, Eq)]
pub enum Unread {
    /// It could not be opened, or a read failed.
    ReadFault,
    /// It has more bytes than the limit. One byte more than that was read.
    TooLarge,
    /// Memory ran out.
    Memory,
}

/// All bytes of the file at a path, up to [`FILE_LIMIT`].
pub fn read_file<I: Input>(alloc: Global, path: &str, input: &mut I) -> Result<Vec<u8>, Unread>
    requires { I.opened input.old ≡ Nothing }

    ensures whole { IfOk result (λ bytes. Takes (I.rest input.old) bytes.items (I.rest input.new)) }
    ensures at_end { OnOk result (IfSome (I.rest input.new) (λ left. left ≡ [])) }
    ensures fits { IfOk result (λ bytes. length bytes.items ≤ FILE_LIMIT) }

    ensures read_fault { IsErrOf result Unread.ReadFault
        → Rose (I.faults input.old) (I.faults input.new) }
    ensures over_limit { IsErrOf result Unread.TooLarge
        → TakesCount (I.rest input.old) (FILE_LIMIT + 1) (I.rest input.new) }
    ensures within_limit { ¬ IsErrOf result Unread.TooLarge
        → TakesAtMost (I.rest input.old) FILE_LIMIT (I.rest input.new) }

    ensures opened { (I.opened input.new ≡ Nothing)
        ⊎ (I.opened input.new ≡ Something (told_path (I.tells_path input.old) path.now)) }
    ensures open { ¬ IsErrOf result Unread.ReadFault
        → I.opened input.new ≡ Something (told_path (I.tells_path input.old) path.now) }
{
    read_within(alloc, path, input, FILE_LIMIT)
}

/// All bytes of the file at a path, up to a limit of at most 1 GiB.
///
/// [`Unread::TooLarge`]: the file has more than `limit` bytes, of which `limit + 1` were read.
pub fn read_within<I: Input>(
    alloc: Global,
    path: &str,
    input: &mut I,
    limit: usize,
) -> Result<Vec<u8>, Unread>
    requires closed { I.opened input.old ≡ Nothing }
    requires small { limit ≤ MAX_LIMIT }

    ensures whole { IfOk result (λ bytes. Takes (I.rest input.old) bytes.items (I.rest input.new)) }
    ensures at_end { OnOk result (IfSome (I.rest input.new) (λ left. left ≡ [])) }
    ensures fits { IfOk result (λ bytes. length bytes.items ≤ limit) }

    ensures read_fault { IsErrOf result Unread.ReadFault
        → Rose (I.faults input.old) (I.faults input.new) }
    ensures over_limit { IsErrOf result Unread.TooLarge
        → TakesCount (I.rest input.old) (limit + 1) (I.rest input.new) }
    ensures within_limit { ¬ IsErrOf result Unread.TooLarge
        → TakesAtMost (I.rest input.old) limit (I.rest input.new) }

    ensures opened { (I.opened input.new ≡ Nothing)
        ⊎ (I.opened input.new ≡ Something (told_path (I.tells_path input.old) path.now)) }
    ensures open { ¬ IsErrOf result Unread.ReadFault
        → I.opened input.new ≡ Something (told_path (I.tells_path input.old) path.now) }
{
    match input.open(path) {
        Ok(()) => (),
        Err(Failed) => return Err(Unread::ReadFault),
    }
    match read_whole(alloc, input, limit) {
        Ok(bytes) => Ok(bytes),
        Err(ReadEnd::Read) => Err(Unread::ReadFault),
        Err(ReadEnd::OverLimit) => Err(Unread::TooLarge),
        Err(ReadEnd::Memory) => Err(Unread::Memory),
    }
}
