//! Two instructions that reach an address by its distance. AUIPC adds the upper part to the program
//! counter. The second instruction adds the rest, a signed number of twelve bits (RISC-V psABI,
//! "PC-Relative Symbol Addresses").

ghost use Rattle.std.specs.Prelude.{◌≡◌, ◌^◌, ◌<◌};
ghost use Rattle.big_case.specs.Pair.{first_word, second_word};

/// The two words of an AUIPC and its second instruction without their distance.
#[derive(Clone, Copy)]
pub(crate) struct Pair {
    pub(crate) first: u32,
    pub(crate) second: u32,
}

/// `auipc x1` and `jalr x1, x1`.
pub(crate) const CALL: Pair = Pair {
    first: 0x0000_0097,
    second: 0x0000_80E7,
};

/// `auipc x14` and `addi x14, x14`.
pub(crate) const TABLE_ADDRESS: Pair = Pair {
    first: 0x0000_0717,
    second: 0x0007_0713,
};

/// The two words with a distance, in bytes from the first of them.
pub(crate) fn pair_to(pair: Pair, distance: u32) -> Pair
    requires near { distance < 2 ^ 26 }
    requires first { pair.first < 2 ^ 12 }
    requires second { pair.second < 2 ^ 20 }
    ensures first { result.first ≡ first_word pair.first distance }
    ensures second { result.second ≡ second_word pair.second distance }
{
    let upper = (distance + (1 << 11)) >> 12;
    let lower = distance % (1 << 12);
    Pair {
        first: pair.first + (upper << 12),
        second: pair.second + (lower << 20),
    }
}
