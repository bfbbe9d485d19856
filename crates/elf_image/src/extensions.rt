//! The extensions of the instruction set that a file names.

/// Which extensions beyond RV64GC a file names. A field is named as the extension.
#[derive(Clone, Copy, Debug, PartialEq, Eq)]
pub struct Extensions {
    /// Address generation.
    pub zba: bool,
    /// Basic bit manipulation.
    pub zbb: bool,
    /// Single bits.
    pub zbs: bool,
    /// Carry-less multiplication.
    pub zbc: bool,
    /// Bit manipulation for cryptography.
    pub zbkb: bool,
    /// Carry-less multiplication for cryptography.
    pub zbkc: bool,
    /// Crossbar permutations.
    pub zbkx: bool,
    /// AES decryption.
    pub zknd: bool,
    /// AES encryption.
    pub zkne: bool,
    /// SHA-2 hash functions.
    pub zknh: bool,
    /// The block cipher SM4.
    pub zksed: bool,
    /// The hash function SM3.
    pub zksh: bool,
    /// Conditional zero.
    pub zicond: bool,
    /// Simple code size reduction: further compressed forms.
    pub zcb: bool,
    /// Compressed pushes, pops and moves of two registers.
    pub zcmp: bool,
    /// Compressed jumps through a table.
    pub zcmt: bool,
    /// May-be operations.
    pub zimop: bool,
    /// Compressed may-be operations.
    pub zcmop: bool,
    /// Atomic compare and swap.
    pub zacas: bool,
    /// Atomic operations on bytes and halfwords.
    pub zabha: bool,
    /// Waiting on a reservation set.
    pub zawrs: bool,
    /// Cache-block management.
    pub zicbom: bool,
    /// Cache-block zeroing.
    pub zicboz: bool,
    /// Shadow stacks.
    pub zicfiss: bool,
    /// Landing pads.
    pub zicfilp: bool,
    /// Floats in integer registers: `zfinx`, `zdinx`, `zhinx` or `zhinxmin`.
    pub zfinx: bool,
    /// Half-precision floating point in integer registers.
    pub zhinx: bool,
    /// The conversions of half precision in integer registers.
    pub zhinxmin: bool,
    /// Half-precision floating point.
    pub zfh: bool,
    /// The moves and conversions of half precision.
    pub zfhmin: bool,
    /// Additional floating point.
    pub zfa: bool,
    /// Conversions of BF16.
    pub zfbfmin: bool,
    /// Vectors of half precision.
    pub zvfh: bool,
    /// Vectors: `v`, or a name from `zve` on.
    pub vector: bool,
    /// The words of a vendor: a name from `xthead` on.
    pub xthead: bool,
}

impl Extensions {
    ghost use Rattle.std.specs.Prelude.{◌≡◌, []};
    ghost use Rattle.elf_image.specs.Architecture.{extensions_named, all_named, settled};
    ghost use Rattle.elf_image.specs.Inner.Architecture.{join};

    /// No extension: RV64GC alone.
    pub fn none() -> Extensions
        ensures none { result ≡ extensions_named [] }
        ensures unsettled { result ≡ all_named [] }
    {
        Extensions {
            zba: false,
            zbb: false,
            zbs: false,
            zbc: false,
            zbkb: false,
            zbkc: false,
            zbkx: false,
            zknd: false,
            zkne: false,
            zknh: false,
            zksed: false,
            zksh: false,
            zicond: false,
            zcb: false,
            zcmp: false,
            zcmt: false,
            zimop: false,
            zcmop: false,
            zacas: false,
            zabha: false,
            zawrs: false,
            zicbom: false,
            zicboz: false,
            zicfiss: false,
            zicfilp: false,
            zfinx: false,
            zhinx: false,
            zhinxmin: false,
            zfh: false,
            zfhmin: false,
            zfa: false,
            zfbfmin: false,
            zvfh: false,
            vector: false,
            xthead: false,
        }
    }

    /// The extensions of both.
    pub(crate) fn join(self, other: Extensions) -> Extensions
        ensures { result ≡ join self other }
    {
        Extensions {
            zba: self.zba | other.zba,
            zbb: self.zbb | other.zbb,
            zbs: self.zbs | other.zbs,
            zbc: self.zbc | other.zbc,
            zbkb: self.zbkb | other.zbkb,
            zbkc: self.zbkc | other.zbkc,
            zbkx: self.zbkx | other.zbkx,
            zknd: self.zknd | other.zknd,
            zkne: self.zkne | other.zkne,
            zknh: self.zknh | other.zknh,
            zksed: self.zksed | other.zksed,
            zksh: self.zksh | other.zksh,
            zicond: self.zicond | other.zicond,
            zcb: self.zcb | other.zcb,
            zcmp: self.zcmp | other.zcmp,
            zcmt: self.zcmt | other.zcmt,
            zimop: self.zimop | other.zimop,
            zcmop: self.zcmop | other.zcmop,
            zacas: self.zacas | other.zacas,
            zabha: self.zabha | other.zabha,
            zawrs: self.zawrs | other.zawrs,
            zicbom: self.zicbom | other.zicbom,
            zicboz: self.zicboz | other.zicboz,
            zicfiss: self.zicfiss | other.zicfiss,
            zicfilp: self.zicfilp | other.zicfilp,
            zfinx: self.zfinx | other.zfinx,
            zhinx: self.zhinx | other.zhinx,
            zhinxmin: self.zhinxmin | other.zhinxmin,
            zfh: self.zfh | other.zfh,
            zfhmin: self.zfhmin | other.zfhmin,
            zfa: self.zfa | other.zfa,
            zfbfmin: self.zfbfmin | other.zfbfmin,
            zvfh: self.zvfh | other.zvfh,
            vector: self.vector | other.vector,
            xthead: self.xthead | other.xthead,
        }
    }

    /// Where floats stand in integer registers, the names that need registers of floats are none.
    pub(crate) fn settled(self) -> Extensions
        ensures { result ≡ settled self }
    {
        if !self.zfinx {
            return self;
        }
        Extensions {
            zfh: false,
            zfhmin: false,
            zfa: false,
            zfbfmin: false,
            ..self
        }
    }
}
