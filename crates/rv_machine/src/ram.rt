//! Memory that can be read and written byte by byte.

/// A finite map from addresses to bytes.
pub trait Ram {
    ghost use Rattle.std.specs.Prelude.{◌≡◌, ◌≤◌, ◌<◌, ◌*◌, ◌^◌, is_some, IfSome};
    ghost use Rattle.std.specs.Prelude.{if◌then◌else◌};
    ghost use Rattle.rv_machine.specs.Memory.{Bytes, loaded, has_bytes, put, stored};

    /// The byte at each address where there is one.
    ghost bytes: { Self → Bytes };

    /// The byte at `a`; `None` if there is none.
    fn load(&self, a: u64) -> Option<u8>
        ensures { result ≡ bytes self.now a };

    /// Writes the byte at `a`; `false` if there is none, and then nothing changes.
    fn store(&mut self, a: u64, b: u8) -> bool
        ensures there { result ≡ is_some (bytes self.old a) }
        ensures bytes { bytes self.new ≡ put (bytes self.old) a b };

    /// The little-endian number in the `count` bytes from `a` on, at most 8; `None` if one of them
    /// is missing. Addresses wrap around.
    fn load_le(&self, a: u64, count: u8) -> Option<u64>
        requires { count ≤ 8 }
        ensures value { result ≡ loaded count (bytes self.now) a }
        ensures fits { IfSome result (λ v. v < 2 ^ (8 * count)) }
    {
        let mut value = 0;
        let mut left = count;
        while 0 < left {
            left -= 1;
            let byte = self.load(a.wrapping_add(u64::from(left)))?;
            value = value * 256 + u64::from(byte);
        }
        Some(value)
    }

    /// Whether all `count` bytes from `a` on are there. Addresses wrap around.
    fn has(&self, a: u64, count: u8) -> bool
        ensures { result ≡ has_bytes count (bytes self.now) a }
    {
        let mut at = a;
        let mut left = count;
        while 0 < left {
            if self.load(at).is_none() {
                return false;
            }
            at = at.wrapping_add(1);
            left -= 1;
        }
        true
    }

    /// Writes the low `count` bytes of `value`, the lowest first, from `a` on; `false` if one of
    /// these bytes is missing, and then nothing changes. Addresses wrap around.
    fn store_le(&mut self, a: u64, count: u8, value: u64) -> bool
        ensures there { result ≡ has_bytes count (bytes self.old) a }
        ensures bytes { bytes self.new
            ≡ (if result then stored count (bytes self.old) a value else bytes self.old) }
    {
        if !self.has(a, count) {
            return false;
        }
        let mut at = a;
        let mut rest = value;
        let mut left = count;
        while 0 < left {
            self.store(at, (rest % 256) as u8);
            at = at.wrapping_add(1);
            rest /= 256;
            left -= 1;
        }
        true
    }
}
