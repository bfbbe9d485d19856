//! The code: a slot for each function, a slot that returns, and a slot that loops without end.

ghost use Rattle.std.specs.Prelude.{◌≡◌, ◌*◌, ◌+◌, ◌-◌, ◌/◌, ◌%◌, ◌≤◌, ◌<◌, ◌++◌, [], ◌∷◌, length};
ghost use Rattle.std.specs.Prelude.{OnOk, IfOk};
ghost use Rattle.big_case.specs.Pair.{first_word, second_word};
ghost use Rattle.big_case.specs.Places.{slot_at, table_at, callee};
ghost use Rattle.big_case.specs.Slots.{function, slot_bytes, code_bytes};

use crate::Memory;
use crate::pair::{CALL, Pair, TABLE_ADDRESS, pair_to};
use crate::place::{SLOT_SIZE, callee, slot_at, table_at};
use byteorder::{ByteOrder, LittleEndian};
use std::alloc::Global;

/// `ret`.
const RETURN: u32 = 0x0000_8067;

/// `jal x0, 0`.
const LOOP: u32 = 0x0000_006F;

/// `addi x10, x10, -1`.
const COUNT_DOWN: u32 = 0xFFF5_0513;

/// `addi x11, x11, 1`.
const COUNT_UP: u32 = 0x0015_8593;

/// `beq x10, x0, +12`: over a call.
const SKIP_CALL: u32 = 0x0005_0663;

/// `bne x10, x0, -4`.
const REPEAT: u32 = 0xFE05_1EE3;

/// The two calls of a function.
#[derive(Clone, Copy)]
struct Children {
    left: Pair,
    right: Pair,
}

/// A call of slot `callee` from the address `at` before it.
fn call_to(at: u32, callee: u32) -> Pair
    requires known { callee ≤ 100001 }
    requires forward { at ≤ slot_at callee }
    ensures first { result.first ≡ first_word 0x97 (slot_at callee - at) }
    ensures second { result.second ≡ second_word 0x80E7 (slot_at callee - at) }
{
    pair_to(CALL, slot_at(callee) - at)
}

/// The address of table `j`, from the address `at` before it.
fn table_address(at: u32, j: u32) -> Pair
    requires known { j ≤ 25000 }
    requires forward { at ≤ table_at j }
    ensures first { result.first ≡ first_word 0x717 (table_at j - at) }
    ensures second { result.second ≡ second_word 0x70713 (table_at j - at) }
{
    pair_to(TABLE_ADDRESS, table_at(j) - at)
}

/// The two calls that function `i` of `n` begins with.
fn call_children(n: u32, i: u32) -> Children
    requires many { n ≤ 100000 }
    requires below { i < n }
    ensures left_first { result.left.first
        ≡ first_word 0x97 (slot_at (callee n (2 * i + 1)) - slot_at i) }
    ensures left_second { result.left.second
        ≡ second_word 0x80E7 (slot_at (callee n (2 * i + 1)) - slot_at i) }
    ensures right_first { result.right.first
        ≡ first_word 0x97 (slot_at (callee n (2 * i + 2)) - (slot_at i + 8)) }
    ensures right_second { result.right.second
        ≡ second_word 0x80E7 (slot_at (callee n (2 * i + 2)) - (slot_at i + 8)) }
{
    let at = slot_at(i);
    Children {
        left: call_to(at, callee(n, 2 * i + 1)),
        right: call_to(at + 8, callee(n, 2 * i + 2)),
    }
}

/// The bytes of a slot that begins with these words. The rest of it is zero.
fn slot_of(words: &[u32]) -> [u8; SLOT_SIZE as usize]
    requires { length words.now ≤ 32 }
    ensures { result ≡ slot_bytes words.now }
{
    let mut slot = [0; SLOT_SIZE as usize];
    LittleEndian::write_u32_into(words, &mut slot[..4 * words.len()]);
    slot
}

/// Appends a slot that begins with these words.
fn put_slot(code: &mut Vec<u8>, words: &[u32]) -> Result<(), Memory>
    requires { length words.now ≤ 32 }
    ensures { OnOk result (code.new.items ≡ code.old.items ++ slot_bytes words.now) }
{
    code.extend_from_slice(&slot_of(words))?;
    Ok(())
}

/// Appends function `i` of `n`, which counts down to zero.
#[tactic(auto, unfolding(crate::specs::Slots::function))]
fn put_counting(code: &mut Vec<u8>, n: u32, i: u32) -> Result<(), Memory>
    requires many { n ≤ 100000 }
    requires below { i < n }
    requires kind { i % 4 ≡ 0 }
    ensures { OnOk result (code.new.items ≡ code.old.items ++ slot_bytes (function n i)) }
{
    let Children { left, right } = call_children(n, i);
    put_slot(
        code,
        &[
            left.first,
            left.second,
            right.first,
            right.second,
            COUNT_DOWN,
            REPEAT,
            RETURN,
        ],
    )
}

/// Appends function `i` of `n`, which counts another register up meanwhile.
#[tactic(auto, unfolding(crate::specs::Slots::function))]
fn put_adding(code: &mut Vec<u8>, n: u32, i: u32) -> Result<(), Memory>
    requires many { n ≤ 100000 }
    requires below { i < n }
    requires kind { i % 4 ≡ 1 }
    ensures { OnOk result (code.new.items ≡ code.old.items ++ slot_bytes (function n i)) }
{
    let Children { left, right } = call_children(n, i);
    put_slot(
        code,
        &[
            left.first,
            left.second,
            right.first,
            right.second,
            COUNT_DOWN,
            COUNT_UP,
            REPEAT,
            RETURN,
        ],
    )
}

/// Appends function `i` of `n`, which calls the slot that loops or does not.
#[tactic(auto, unfolding(crate::specs::Slots::function))]
fn put_branching(code: &mut Vec<u8>, n: u32, i: u32) -> Result<(), Memory>
    requires many { n ≤ 100000 }
    requires below { i < n }
    requires kind { i % 4 ≡ 2 }
    ensures { OnOk result (code.new.items ≡ code.old.items ++ slot_bytes (function n i)) }
{
    let Children { left, right } = call_children(n, i);
    let loops = call_to(slot_at(i) + 20, n + 1);
    put_slot(
        code,
        &[
            left.first,
            left.second,
            right.first,
            right.second,
            SKIP_CALL,
            loops.first,
            loops.second,
            RETURN,
        ],
    )
}

/// Appends function `i` of `n`, which jumps through a table.
#[tactic(auto, unfolding(crate::specs::Slots::function))]
fn put_jumping(code: &mut Vec<u8>, n: u32, i: u32) -> Result<(), Memory>
    requires many { n ≤ 100000 }
    requires below { i < n }
    requires kind { i % 4 ≡ 3 }
    ensures { OnOk result (code.new.items ≡ code.old.items ++ slot_bytes (function n i)) }
{
    let Children { left, right } = call_children(n, i);
    let table = table_address(slot_at(i) + 24, i / 4);
    put_slot(
        code,
        &[
            left.first,
            left.second,
            right.first,
            right.second,
            // addi x15, x0, 4; bltu x15, x10, +44
            0x0040_0793,
            0x02A7_E663,
            table.first,
            table.second,
            // slli x10, x10, 2; add x10, x10, x14; lw x15, 0(x10); add x15, x15, x14
            0x0025_1513,
            0x00E5_0533,
            0x0005_2783,
            0x00E7_87B3,
            // jalr x0, 0(x15), and where the table and the bound test lead
            0x0007_8067,
            RETURN,
            RETURN,
            // addi x10, x0, 1
            0x0010_0513,
            RETURN,
        ],
    )
}

/// Appends function `i` of `n`. Its body goes by `i` modulo 4.
fn put_function(code: &mut Vec<u8>, n: u32, i: u32) -> Result<(), Memory>
    requires many { n ≤ 100000 }
    requires below { i < n }
    ensures { OnOk result (code.new.items ≡ code.old.items ++ slot_bytes (function n i)) }
{
    match i % 4 {
        0 => put_counting(code, n, i),
        1 => put_adding(code, n, i),
        2 => put_branching(code, n, i),
        _ => put_jumping(code, n, i),
    }
}

/// The bytes of the code of a program of `n` functions.
pub(crate) fn code_of(alloc: Global, n: u32) -> Result<Vec<u8>, Memory>
    requires { n ≤ 100000 }
    ensures { IfOk result (λ code. code.items ≡ code_bytes n) }
{
    let mut code = Vec::with_capacity(alloc, (SLOT_SIZE * (n + 2)) as usize)?;
    for i in 0..n {
        put_function(&mut code, n, i)?;
    }
    put_slot(&mut code, &[RETURN])?;
    put_slot(&mut code, &[LOOP])?;
    Ok(code)
}
