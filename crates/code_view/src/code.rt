//! An image's instructions as a program.

use crate::Memory;
use crate::calls::Calls;
use crate::cuts::Cuts;
use crate::flow::{call_flow, jump_flow, straight_flow, table_flow};
use crate::jump_word::{is_jump_word, jump_length};
use crate::kept::kept_targets;
use crate::register_jump::register_jumps_between;
use crate::tables::AllTables;
use cfg_model::{Chains, Flow};
use chain_index::ChainIndex;
use elf_image::Image;
use jump_table::{Table, find_table};
use rv_flow::{RawFlow, flow_of_bytes, insn_at};
use std::alloc::Global;
use std::marker::Model;

/// The code of an image under table cuts, as a program: an instruction at each code address.
///
/// Targets outside the code are dropped: a jump or a call whose target is outside is one whose
/// target is not known, and a branch that loses one of its ways is cut off. A straight instruction
/// with no code after it stops. A jump through a register that is no return goes through its jump
/// table, and its cut says how many entries are kept. Without a table its targets are unknown. Once
/// all tables of the code are known, they are looked up; before, each is found anew. A call goes on
/// at its landing pad too, if the file has one for it. A call of a known function that does not
/// return has no fall.
#[derive(Drop)]
pub struct Code<'a> {
    image: &'a Image,
    index: &'a ChainIndex<'a>,
    calls: &'a Calls<'a>,
    cuts: &'a Cuts,
    tables: Option<&'a AllTables>,
}

impl<'a> Model for Code<'a> {
    ghost use Rattle.code_view.specs.FileCode.{FileCode, file_code};

    ghost Value = { FileCode };

    ghost coded = { file_code };

    ghost view = { λ c. record { bytes = c.image.now; cuts = c.cuts.now } };

    ghost use Rattle.code_view.specs.Inner.{IsCodeOf};

    ghost invariant = { IsCodeOf };
}

impl<'a> Code<'a> {
    ghost use Rattle.std.specs.Prelude.{◌≡◌, ℕ, ◌<◌, ◌≤◌, None, IsTrue, IsSome, IfOk};
    ghost use Rattle.std.specs.Prelude.{All, Contains, vec_len, option_to_list};
    ghost use Rattle.std.specs.List.Sorted.{IsNonDecreasing};
    ghost use Rattle.elf_image.specs.Code.{is_code};
    ghost use Rattle.elf_image.specs.Faults.{IsImage};
    ghost use Rattle.rv_flow.specs.Placed.{placed_at};
    ghost use Rattle.jump_table.specs.Table.{table_at};
    ghost use Rattle.code_view.specs.Cuts.{cut_of, CutsFit};
    ghost use Rattle.code_view.specs.Flow.{flow_by, call_flow, call_fall, in_code, pad_behind};
    ghost use Rattle.code_view.specs.Program.{program_under};
    ghost use Rattle.code_view.specs.FileCode.{program_of};
    ghost use Rattle.code_view.specs.Tables.{AreAllTables};
    ghost use Rattle.code_view.specs.RegisterJump.{AreRegisterJumps};
    ghost use Rattle.code_view.specs.RegisterJump.{IsBetween, AreRegisterJumpsBetween};
    ghost use Rattle.cfg_model.specs.Program.Instructions.{flow_at, targets_at, IsLawful};

    /// The code of `image`, whose chains end as `index` says, and whose calls do what `calls` say,
    /// under `cuts`. Each of the cuts is of a table of that image: at least 1, and at most the
    /// number of the table's entries.
    pub fn new(
        image: &'a Image,
        index: &'a ChainIndex<'a>,
        calls: &'a Calls<'a>,
        cuts: &'a Cuts,
    ) -> Code<'a>
        requires index { index.now ≡ image.now }
        requires calls { calls.now ≡ image.now }
        requires cuts { CutsFit image.now (cut_of cuts.now) }
        ensures program { ⟦<Code<'a> as Chains>⟧.map result ≡ program_under image.now
            (cut_of cuts.now) }
        ensures bytes { result.bytes ≡ image.now }
        ensures cuts { result.cuts ≡ cuts.now }
    {
        prove!(image.is_code(image.entry()));
        Code {
            image,
            index,
            calls,
            cuts,
            tables: None,
        }
    }

    /// The same code under other cuts, each of a table of that image. It knows the same tables.
    pub fn under<'b>(&'b self, cuts: &'b Cuts) -> Code<'b>
        requires cuts { CutsFit self.now.bytes (cut_of cuts.now) }
        ensures bytes { result.bytes ≡ self.now.bytes }
        ensures cuts { result.cuts ≡ cuts.now }
    {
        Code {
            image: self.image,
            index: self.index,
            calls: self.calls,
            cuts,
            tables: self.tables,
        }
    }

    /// The same code under the same cuts, which knows all its tables.
    pub fn with_tables<'b>(&'b self, tables: &'b AllTables) -> Code<'b>
        requires { AreAllTables self.now.bytes tables.now }
        ensures { result ≡ self.now }
    {
        Code {
            image: self.image,
            index: self.index,
            calls: self.calls,
            cuts: self.cuts,
            tables: Some(tables),
        }
    }

    /// The code addresses whose first halfword is that of a jump through a register that is not a
    /// return by C.JR: it links to x0, or to x6 as a stub of an indirect function does. No other
    /// address has a jump table. An instruction of the program may begin there or not. A return by
    /// C.JR goes through x1 or x5, the link registers (RISC-V Unprivileged ISA 20240411, section
    /// 2.5.1, the table of return-address stack hints). A return by JALR is among the answers,
    /// since its first halfword does not tell its register.
    /// Time: O(bytes of code).
    pub fn register_jumps(&self, alloc: Global) -> Result<Vec<u64>, Memory>
        ensures exact { IfOk result (λ jumps. AreRegisterJumps self.now.bytes jumps.items) }
        ensures tables { IfOk result
            (λ jumps. (a : ℕ) → IsSome (table_at self.now.bytes a) → Contains jumps.items a) }
        ensures code { IfOk result
            (λ jumps. All (λ a. IsTrue (is_code self.now.bytes a)) jumps.items) }
    {
        self.register_jumps_between(alloc, None, None)
    }

    /// Those of [`register_jumps`](Self::register_jumps) that lie above `after` and up to `last`,
    /// if there are such bounds. So several threads can each search a part of the code.
    /// Time: O(number of sections + bytes of code between the bounds).
    pub fn register_jumps_between(
        &self,
        alloc: Global,
        after: Option<u64>,
        last: Option<u64>,
    ) -> Result<Vec<u64>, Memory>
        ensures exact { IfOk result
            (λ jumps. AreRegisterJumpsBetween self.now.bytes after last jumps.items) }
        ensures tables { IfOk result (λ jumps. (a : ℕ) → IsBetween after last a
            → IsSome (table_at self.now.bytes a) → Contains jumps.items a) }
        ensures code { IfOk result
            (λ jumps. All (λ a. IsTrue (is_code self.now.bytes a)) jumps.items) }
    {
        register_jumps_between(alloc, self.image, after, last)
    }

    /// The jump table of the jump at the code address `j`, before cuts; `None` exactly if it has
    /// none. Time: that of [`AllTables::table`] once all tables are known, and else that of
    /// [`find_table`].
    pub fn table(&self, j: u64) -> Option<Table>
        requires { IsTrue (is_code self.now.bytes j) }
        ensures { result ≡ table_at self.now.bytes j }
    {
        match self.tables {
            Some(tables) => tables.table(j),
            None => find_table(self.image, j),
        }
    }

    /// The index of the image, by which its code addresses are numbered.
    pub fn index(&self) -> &ChainIndex<'a>
        ensures index { result.now ≡ self.now.bytes }
        ensures accepted { IsImage self.now.bytes }
        ensures lawful { IsLawful (program_of self.now) }
    {
        self.index
    }

    /// Addresses that cut the code into `count` ranges of about the same size in bytes:
    /// [`ChainIndex::bounds`].
    pub fn bounds(&self, alloc: Global, count: u32) -> Result<Vec<u64>, Memory>
        requires { 1 ≤ count }
        ensures few { IfOk result (λ bounds. vec_len bounds ≤ count) }
        ensures rising { IfOk result (λ bounds. IsNonDecreasing bounds.items) }
    {
        self.index.bounds(alloc, count)
    }

    /// The flow of the instruction at `a`, which is decoded.
    #[inline(never)]
    fn decoded_flow(&self, a: u64) -> Flow
        requires { IsTrue (is_code self.now.bytes a) }
        ensures { flow_at (program_of self.now) a ≡ Some result }
    {
        let placed = flow_of_bytes(self.image, a, self.index.bytes_at(a));
        let behind = a + u64::from(placed.length);
        self.flow_by(a, behind, placed.flow)
    }

    /// The length of the instruction at `a`. Most often its first halfword tells it: what is no
    /// instruction has the length 2.
    fn told_length(&self, a: u64) -> u8
        requires { IsTrue (is_code self.now.bytes a) }
        ensures length { result ≡ (placed_at self.now.bytes a).length }
        ensures lawful { IsLawful (program_of self.now) }
    {
        let read = self.index.bytes_at(a);
        if read.half & 0b11 != 0b11 {
            2
        } else if is_jump_word(read.half) {
            jump_length(read.word)
        } else {
            self.word_length(a)
        }
    }

    /// The length of the instruction at `a`, which is decoded if control does not go straight on
    /// after it.
    fn word_length(&self, a: u64) -> u8
        requires { IsTrue (is_code self.now.bytes a) }
        ensures { result ≡ (placed_at self.now.bytes a).length }
    {
        match self.index.next(a) {
            Some(next) => (next - a) as u8,
            None => insn_at(self.image, a).length,
        }
    }

    /// `a`, if it is a code address.
    fn in_code(&self, a: u64) -> Option<u64>
        ensures { result ≡ in_code self.now.bytes a }
    {
        if self.index.is_code(a) { Some(a) } else { None }
    }

    /// The flow of the instruction at `a`, which alone has the flow `raw`; `behind` is the address
    /// after it.
    fn flow_by(&self, a: u64, behind: u64, raw: RawFlow) -> Flow
        requires { IsTrue (is_code self.now.bytes a) }
        ensures { result ≡ flow_by self.now.bytes behind (cut_of self.now.cuts a)
            (table_at self.now.bytes a) raw }
    {
        match raw {
            RawFlow::Straight => straight_flow(self.in_code(behind)),
            RawFlow::Branch { target } => Flow::Branch {
                taken: self.in_code(target),
                fall: self.in_code(behind),
            },
            RawFlow::Jump { target } => jump_flow(self.in_code(target)),
            RawFlow::Call { target } => self.call_of(target, behind),
            RawFlow::IndirectCall => call_flow(None, self.in_code(behind)),
            RawFlow::Return => Flow::Return,
            RawFlow::RegisterJump { .. } => table_flow(self.cuts.count(a), self.table(a)),
            RawFlow::Unknown => Flow::Unknown,
            RawFlow::Stop => Flow::Stop,
        }
    }

    /// The flow of a call of `target`; `behind` is the address after it.
    fn call_of(&self, target: u64, behind: u64) -> Flow
        ensures { result ≡ call_flow (in_code self.now.bytes target)
            (call_fall self.now.bytes target behind) }
    {
        if !self.index.is_code(target) {
            return Flow::IndirectCall {
                fall: self.in_code(behind),
            };
        }
        if self.calls.ends_at(target) {
            return Flow::Call { target, fall: None };
        }
        Flow::Call {
            target,
            fall: self.in_code(behind),
        }
    }

    /// The landing pad of the call that ends at the address `behind`, if it is one of code.
    fn pad_behind(&self, behind: u64) -> Option<u64>
        requires { 0 < behind }
        ensures { result ≡ pad_behind self.now.bytes behind }
    {
        match self.calls.pad(behind - 1) {
            Some(pad) => self.in_code(pad),
            None => None,
        }
    }

    /// The kept targets of the instruction at `a`, which has no table: the landing pad of a call.
    fn pads(&self, a: u64) -> Result<Vec<u64>, Memory>
        requires code { IsTrue (is_code self.now.bytes a) }
        requires table { table_at self.now.bytes a ≡ None }
        ensures { IfOk result (λ v. v.items ≡ targets_at (program_of self.now) a) }
    {
        let mut pads = Vec::new(self.cuts.alloc());
        if let Some(pad) = self.pad(a) {
            pads.push(pad)?;
        }
        Ok(pads)
    }

    /// The landing pad of the instruction at `a`, which has no table, if it is a call that has one.
    fn pad(&self, a: u64) -> Option<u64>
        requires code { IsTrue (is_code self.now.bytes a) }
        requires table { table_at self.now.bytes a ≡ None }
        ensures { targets_at (program_of self.now) a ≡ option_to_list result }
    {
        match self.flow(a) {
            Flow::Call { .. } | Flow::IndirectCall { .. } => self.landing(a),
            _ => None,
        }
    }
}

impl<'a> Chains for Code<'a> {
    ghost use Rattle.code_view.specs.FileCode.{program_of};

    ghost map = { program_of };

    fn has(&self, a: u64) -> bool {
        self.index.is_code(a)
    }

    // Only what ends its chain is decoded.
    #[inline(always)]
    fn flow(&self, a: u64) -> Flow {
        match self.index.next(a) {
            Some(next) => Flow::Straight { next },
            None => self.decoded_flow(a),
        }
    }

    fn length(&self, a: u64) -> u8 {
        self.told_length(a)
    }

    fn targets(&self, a: u64) -> Result<Vec<u64>, Memory> {
        match self.table(a) {
            Some(table) => kept_targets(self.cuts.alloc(), self.image, self.cuts.count(a), table),
            None => self.pads(a),
        }
    }

    fn landing(&self, a: u64) -> Option<u64> {
        if self.calls.lands_nowhere() {
            return None;
        }
        self.pad_behind(a + u64::from(self.told_length(a)))
    }

    #[inline(always)]
    fn term(&self, a: u64) -> u64 {
        self.index.term(a)
    }
}
