//! How an input in memory gives its bytes.
ghost use Rattle.std.specs.Prelude.{◌≡◌, ◌++◌, length, take, drop, min};

/// Copies the front of `bytes` to the front of `buf`, as many as there are and fit, `most` at most,
/// and answers how many.
pub(crate) fn give(bytes: &[u8], most: usize, buf: &mut [u8]) -> usize
    ensures count { result ≡ min (length buf.old) (min most (length bytes.now)) }
    ensures copied { buf.new ≡ take result bytes.now ++ drop result buf.old }
{
    let n = buf.len().min(most.min(bytes.len()));
    buf[..n].copy_from_slice(&bytes[..n]);
    n
}
