//! What is known of the terminators of a program, by number, and the changes of it.

ghost use Rattle.std.specs.Prelude.{◌≡◌, ◌↔◌, ◌⊎◌, ◌+◌, ◌≤◌, ◌<◌, ℕ, List, length, get_or, IsTrue};
ghost use Rattle.std.specs.Prelude.{IfOk, OnOk, IsSome, IfSome, All, option_to_list, ⊤, None, Some};
ghost use Rattle.cfg_model.specs.Program.Instructions.{InstructionMap, IsLawful, targets_at};
ghost use Rattle.cfg_model.specs.Program.Chain.{IsTerminator, IsTerminatorOf};
ghost use Rattle.cfg_model.specs.Program.Reach.{Reached};
ghost use Rattle.cfg_model.specs.Program.Successors.{MayLand};
ghost use Rattle.numbered.specs.Numbering.{IsNumbering};
ghost use Rattle.reached_terms.specs.Sent.{IsSent};
ghost use Rattle.reached_terms.specs.Inner.Marks.{AreKept, AreRight, AreTold, IsCalled, IsDone};
ghost use Rattle.reached_terms.specs.Inner.Marks.{IsLed, IsNumberOf, IsOn, IsVisited, IsWay, HasWay};
ghost use Rattle.reached_terms.specs.Inner.Marks.{CallsOn, IsCutOff, LeadsBy, LeadsOn, ReturnsBy};
ghost use Rattle.reached_terms.specs.Inner.Marks.{terms_of};
ghost use Rattle.reached_terms.specs.Inner.Steps.{Grow, IsArrived, IsLinked, IsMarked, Step};
ghost use Rattle.reached_terms.specs.Inner.Steps.{left_to_tell};

use crate::reached::ReachedTerms;
use cfg_model::{Flow, Memory};
use numbered::Numbered;
use std::alloc::Global;

/// That one terminator may return if another does. Those that wait for the same one are a list.
#[derive(Clone, Copy)]
pub(crate) struct Way {
    /// The number of the terminator that waits.
    pub(crate) from: u32,
    /// The number of the terminator that it waits for.
    pub(crate) to: u32,
    /// Of a call that waits for its target: where it returns to.
    pub(crate) fall: Option<u64>,
    /// The place of the one before it that waits for the same terminator, from 1 on; 0 if there is
    /// none.
    pub(crate) before: u32,
}

/// What is known of the terminators of a program. Only what is reached is looked at.
#[derive(Drop)]
pub(crate) struct Marks {
    /// Whether the terminator with this number is reached.
    pub(crate) reached: Vec<bool>,
    /// Whether it is known to return.
    pub(crate) returns: Vec<bool>,
    /// The place of the last one that waits for it, from 1 on; 0 if there is none.
    pub(crate) waiting: Vec<u32>,
    /// The reached terminators to visit, in the order in which they were found.
    pub(crate) order: Vec<u64>,
    /// Who waits for whom.
    pub(crate) ways: Vec<Way>,
    /// The numbers of those that return, but whose callers have not been told yet.
    pub(crate) untold: Vec<u32>,
    /// Whether a block is known to start at the address with this number, as where control is sent.
    pub(crate) sent: Vec<bool>,
}

impl Marks {
    /// Nothing is known of so many terminators.
    pub(crate) fn new(alloc: Global, numbers: u32) -> Result<Marks, Memory>
        ensures kept { IfOk result (λ m. (map : InstructionMap) (number : ℕ → ℕ) → IsLawful map
            → IsNumbering map number numbers → AreKept map number m) }
        ensures right { IfOk result (λ m. (map : InstructionMap) (number : ℕ → ℕ) (seeds : List ℕ)
            → AreRight map number seeds m) }
        ensures told { IfOk result (λ m. (map : InstructionMap) (number : ℕ → ℕ) (n at : ℕ)
            → AreTold map number m n at) }
        ensures none { IfOk result (λ m. length m.untold.items ≡ 0) }
    {
        let count = numbers as usize;
        Ok(Marks {
            reached: vec![in alloc; false; count]?,
            returns: vec![in alloc; false; count]?,
            waiting: vec![in alloc; 0; count]?,
            order: Vec::new(alloc),
            ways: Vec::new(alloc),
            untold: Vec::new(alloc),
            sent: vec![in alloc; false; count]?,
        })
    }

    /// What is marked: of each terminator whether it is reached, and whether it returns, and of each
    /// address whether a block is known to start there.
    pub(crate) fn into_terms(self) -> ReachedTerms
        ensures { result ≡ terms_of self }
    {
        ReachedTerms::from_marks(self.reached, self.returns, self.sent)
    }

    /// Control is sent to `a`: notes that, marks the terminator of `a` as reached, and answers its
    /// number. All is looked up before anything is written.
    #[inline(always)]
    pub(crate) fn arrive<C: Numbered>(&mut self, code: &C, a: u64) -> Result<u32, Memory>
        requires kept { AreKept (C.map code.now) (C.number code.now) self.old }
        requires has { IsSome (C.map code.now a) }
        ensures step { IfOk result (λ _. Step (C.map code.now) (C.number code.now)
            (λ seeds. IsSent (C.map code.now) seeds a) self.old self.new) }
        ensures there { IfOk result
            (IsArrived (C.map code.now) (C.number code.now) self.new a) }
        ensures sent { IfOk result (λ _. IsOn self.new.sent.items (C.number code.now a)) }
        ensures untold { IfOk result (λ _. self.new.untold ≡ self.old.untold) }
    {
        let at = code.number(a);
        let k = code.term(a);
        let n = code.number(k);
        self.note(code, a, at);
        self.reach(code, a, k, n)?;
        Ok(n)
    }

    /// Notes that control is sent to `a`, whose number is `at`.
    fn note<C: Numbered>(&mut self, code: &C, a: u64, at: u32)
        requires kept { AreKept (C.map code.now) (C.number code.now) self.old }
        requires has { IsSome (C.map code.now a) }
        requires number { at ≡ C.number code.now a }
        ensures step { Step (C.map code.now) (C.number code.now)
            (λ seeds. IsSent (C.map code.now) seeds a) self.old self.new }
        ensures sent { IsOn self.new.sent.items (C.number code.now a) }
        ensures untold { self.new.untold ≡ self.old.untold }
    {
        self.sent[at as usize] = true;
    }

    /// Marks the terminator of the reached address `a` as reached: the one at `k`, with the number
    /// `n`.
    #[inline(always)]
    fn reach<C: Numbered>(&mut self, code: &C, a: u64, k: u64, n: u32) -> Result<(), Memory>
        requires kept { AreKept (C.map code.now) (C.number code.now) self.old }
        requires ends { IsTerminatorOf (C.map code.now) a k }
        requires number { n ≡ C.number code.now k }
        ensures step { OnOk result (Step (C.map code.now) (C.number code.now)
            (λ seeds. Reached (C.map code.now) seeds a) self.old self.new) }
        ensures there { OnOk result
            (IsArrived (C.map code.now) (C.number code.now) self.new a n) }
        ensures sent { OnOk result (self.new.sent ≡ self.old.sent) }
        ensures untold { OnOk result (self.new.untold ≡ self.old.untold) }
    {
        if !self.reached[n as usize] {
            self.order.push(k)?;
            self.reached[n as usize] = true;
        }
        Ok(())
    }

    /// Marks that the terminator with the number `n` returns.
    pub(crate) fn mark(&mut self, n: u32) -> Result<(), Memory>
        requires { n < length self.old.returns.items }
        ensures { OnOk result (IsMarked n self.old self.new) }
    {
        if !self.returns[n as usize] {
            self.untold.push(n)?;
            self.returns[n as usize] = true;
        }
        Ok(())
    }

    /// Notes that the terminator `from` returns if `to` does.
    #[inline(always)]
    pub(crate) fn follow(&mut self, from: u32, to: u32) -> Result<(), Memory>
        requires { (map : InstructionMap) × (number : ℕ → ℕ) × AreKept map number self.old
            × IsNumberOf map number from × IsNumberOf map number to }
        ensures step { OnOk result ((map : InstructionMap) (number : ℕ → ℕ)
            → AreKept map number self.old → IsNumberOf map number from → IsNumberOf map number to
            → Step map number (λ seeds. LeadsBy map number seeds from to None) self.old self.new) }
        ensures way { OnOk result (IsOn self.new.returns.items from
            ⊎ HasWay self.new.ways.items from to None) }
    {
        if self.returns[from as usize] {
            return Ok(());
        }
        if self.returns[to as usize] {
            return self.mark(from);
        }
        self.link(from, to, None)
    }

    /// The call `from`, whose target returns, goes on at `fall`, and returns if that does.
    pub(crate) fn release<C: Numbered>(
        &mut self,
        code: &C,
        from: u32,
        fall: u64,
    ) -> Result<(), Memory>
        requires kept { AreKept (C.map code.now) (C.number code.now) self.old }
        requires number { IsNumberOf (C.map code.now) (C.number code.now) from }
        requires has { IsSome (C.map code.now fall) }
        ensures step { OnOk result (Step (C.map code.now) (C.number code.now)
            (λ seeds. LeadsOn (C.map code.now) (C.number code.now) seeds from fall)
            self.old self.new) }
        ensures led { OnOk result
            (IsLed (C.map code.now) (C.number code.now) self.new from fall) }
    {
        let to = self.arrive(code, fall)?;
        self.follow(from, to)
    }

    /// Notes that the call `from` goes on at `fall` if its target, whose terminator is `to`,
    /// returns.
    pub(crate) fn call<C: Numbered>(
        &mut self,
        code: &C,
        from: u32,
        to: u32,
        fall: u64,
    ) -> Result<(), Memory>
        requires kept { AreKept (C.map code.now) (C.number code.now) self.old }
        requires from { IsNumberOf (C.map code.now) (C.number code.now) from }
        requires to { IsNumberOf (C.map code.now) (C.number code.now) to }
        requires has { IsSome (C.map code.now fall) }
        ensures step { OnOk result (Step (C.map code.now) (C.number code.now)
            (λ seeds. LeadsBy (C.map code.now) (C.number code.now) seeds from to (Some fall))
            self.old self.new) }
        ensures way { OnOk result
            (IsLed (C.map code.now) (C.number code.now) self.new from fall
            ⊎ HasWay self.new.ways.items from to (Some fall)) }
    {
        if self.returns[to as usize] {
            self.release(code, from, fall)
        } else {
            self.link(from, to, Some(fall))
        }
    }

    /// Links a way to the terminator that it leads to.
    #[inline(always)]
    fn link(&mut self, from: u32, to: u32, fall: Option<u64>) -> Result<(), Memory>
        requires { to < length self.old.waiting.items }
        ensures { OnOk result (IsLinked from to fall self.old self.new) }
    {
        let Ok(place) = u32::try_from(self.ways.len() + 1) else {
            return Err(Memory);
        };
        let before = self.waiting[to as usize];
        self.ways.push(Way {
            from,
            to,
            fall,
            before,
        })?;
        self.waiting[to as usize] = place;
        Ok(())
    }

    /// Notifies all that wait for the terminator with the number `n` that it returns.
    pub(crate) fn notify<C: Numbered>(&mut self, code: &C, n: u32) -> Result<(), Memory>
        requires kept { AreKept (C.map code.now) (C.number code.now) self.old }
        requires number { IsNumberOf (C.map code.now) (C.number code.now) n }
        ensures kept { OnOk result (AreKept (C.map code.now) (C.number code.now) self.new) }
        ensures grow { OnOk result (Grow self.old self.new) }
        ensures right { OnOk result ((seeds : List ℕ)
            → AreRight (C.map code.now) (C.number code.now) seeds self.old
            → ReturnsBy (C.map code.now) (C.number code.now) n
            → AreRight (C.map code.now) (C.number code.now) seeds self.new) }
        ensures told { OnOk result
            (AreTold (C.map code.now) (C.number code.now) self.old n (length self.old.ways.items)
            → (m : ℕ) → AreTold (C.map code.now) (C.number code.now) self.new m 0) }
        ensures left { OnOk result (left_to_tell self.new ≤ left_to_tell self.old) }
    {
        let mut at = self.waiting[n as usize];
        while at > 0 {
            let way = self.ways[at as usize - 1];
            self.pass(code, way)?;
            at = way.before;
        }
        Ok(())
    }

    /// What follows for the one that waits, if the terminator that it waits for returns.
    fn pass<C: Numbered>(&mut self, code: &C, way: Way) -> Result<(), Memory>
        requires kept { AreKept (C.map code.now) (C.number code.now) self.old }
        requires way { IsWay (C.map code.now) (C.number code.now) way }
        ensures step { OnOk result (Step (C.map code.now) (C.number code.now)
            (λ seeds. LeadsBy (C.map code.now) (C.number code.now) seeds way.from way.to way.fall
            × ReturnsBy (C.map code.now) (C.number code.now) way.to) self.old self.new) }
        ensures done { OnOk result
            (IsDone (C.map code.now) (C.number code.now) self.new way) }
    {
        match way.fall {
            None => self.mark(way.from),
            Some(fall) => self.release(code, way.from, fall),
        }
    }

    /// Follows the instruction at the reached terminator `k`.
    #[inline(always)]
    pub(crate) fn visit<C: Numbered>(&mut self, code: &C, k: u64) -> Result<(), Memory>
        requires kept { AreKept (C.map code.now) (C.number code.now) self.old }
        requires ends { IsTerminator (C.map code.now) k }
        ensures step { OnOk result (Step (C.map code.now) (C.number code.now)
            (λ seeds. Reached (C.map code.now) seeds k) self.old self.new) }
        ensures visited { OnOk result
            (IsVisited (C.map code.now) (C.number code.now) self.new k) }
    {
        let n = code.number(k);
        match code.flow(k) {
            Flow::Branch { taken, fall } => self.branch(code, n, taken, fall),
            Flow::Jump { target } => self.lead(code, n, target),
            Flow::Call { target, fall } => {
                self.call_from(code, n, target, fall)?;
                self.land(code, n, k)
            }
            Flow::IndirectCall { fall } => {
                self.lead_any(code, n, fall)?;
                self.land(code, n, k)
            }
            Flow::Table { .. } => self.table(code, n, k),
            Flow::Return | Flow::Unknown => self.mark(n),
            Flow::Stop | Flow::Straight { .. } => Ok(()),
        }
    }

    /// The terminator `n` leads to the address `b`, and returns if that does.
    fn lead<C: Numbered>(&mut self, code: &C, n: u32, b: u64) -> Result<(), Memory>
        requires kept { AreKept (C.map code.now) (C.number code.now) self.old }
        requires number { IsNumberOf (C.map code.now) (C.number code.now) n }
        requires has { IsSome (C.map code.now b) }
        ensures step { OnOk result (Step (C.map code.now) (C.number code.now)
            (λ seeds. LeadsOn (C.map code.now) (C.number code.now) seeds n b)
            self.old self.new) }
        ensures led { OnOk result (IsLed (C.map code.now) (C.number code.now) self.new n b) }
    {
        let to = self.arrive(code, b)?;
        self.follow(n, to)
    }

    /// The same, where there is such an address.
    fn lead_any<C: Numbered>(&mut self, code: &C, n: u32, b: Option<u64>) -> Result<(), Memory>
        requires kept { AreKept (C.map code.now) (C.number code.now) self.old }
        requires number { IsNumberOf (C.map code.now) (C.number code.now) n }
        requires has { IfSome b (λ a. IsSome (C.map code.now a)) }
        ensures step { OnOk result (Step (C.map code.now) (C.number code.now)
            (λ seeds. IfSome b (LeadsOn (C.map code.now) (C.number code.now) seeds n))
            self.old self.new) }
        ensures led { OnOk result
            (IfSome b (IsLed (C.map code.now) (C.number code.now) self.new n)) }
    {
        match b {
            Some(b) => self.lead(code, n, b),
            None => Ok(()),
        }
    }

    /// A branch leads to both of its ways, and returns if one leads out of the code.
    fn branch<C: Numbered>(
        &mut self,
        code: &C,
        n: u32,
        taken: Option<u64>,
        fall: Option<u64>,
    ) -> Result<(), Memory>
        requires kept { AreKept (C.map code.now) (C.number code.now) self.old }
        requires number { IsNumberOf (C.map code.now) (C.number code.now) n }
        requires taken { IfSome taken (λ a. IsSome (C.map code.now a)) }
        requires fall { IfSome fall (λ a. IsSome (C.map code.now a)) }
        ensures step { OnOk result (Step (C.map code.now) (C.number code.now)
            (λ seeds. IfSome taken (LeadsOn (C.map code.now) (C.number code.now) seeds n)
            × IfSome fall (LeadsOn (C.map code.now) (C.number code.now) seeds n)
            × (IsCutOff taken fall → ReturnsBy (C.map code.now) (C.number code.now) n))
            self.old self.new) }
        ensures taken { OnOk result
            (IfSome taken (IsLed (C.map code.now) (C.number code.now) self.new n)) }
        ensures fall { OnOk result
            (IfSome fall (IsLed (C.map code.now) (C.number code.now) self.new n)) }
        ensures itself { OnOk result (IsCutOff taken fall → IsOn self.new.returns.items n) }
    {
        if is_cut_off(taken, fall) {
            self.mark(n)?;
        }
        self.lead_any(code, n, taken)?;
        self.lead_any(code, n, fall)
    }

    /// A call of a known address leads to its target, and waits for it if it has a fall.
    fn call_from<C: Numbered>(
        &mut self,
        code: &C,
        n: u32,
        target: u64,
        fall: Option<u64>,
    ) -> Result<(), Memory>
        requires kept { AreKept (C.map code.now) (C.number code.now) self.old }
        requires number { IsNumberOf (C.map code.now) (C.number code.now) n }
        requires target { IsSome (C.map code.now target) }
        requires fall { IfSome fall (λ a. IsSome (C.map code.now a)) }
        ensures step { OnOk result (Step (C.map code.now) (C.number code.now)
            (λ seeds. IsSent (C.map code.now) seeds target
            × IfSome fall (CallsOn (C.map code.now) (C.number code.now) seeds n target))
            self.old self.new) }
        ensures called { OnOk result
            (IsCalled (C.map code.now) (C.number code.now) self.new n target fall) }
    {
        let to = self.arrive(code, target)?;
        match fall {
            Some(fall) => self.call(code, n, to, fall),
            None => Ok(()),
        }
    }

    /// A call leads to its landing pad, if it has one.
    fn land<C: Numbered>(&mut self, code: &C, n: u32, k: u64) -> Result<(), Memory>
        requires kept { AreKept (C.map code.now) (C.number code.now) self.old }
        requires number { IsNumberOf (C.map code.now) (C.number code.now) n }
        requires calls { MayLand (C.map code.now) k }
        ensures step { OnOk result (Step (C.map code.now) (C.number code.now)
            (λ seeds. All (LeadsOn (C.map code.now) (C.number code.now) seeds n)
            (targets_at (C.map code.now) k)) self.old self.new) }
        ensures led { OnOk result
            (All (IsLed (C.map code.now) (C.number code.now) self.new n)
            (targets_at (C.map code.now) k)) }
    {
        self.lead_any(code, n, code.landing(k))
    }

    /// A table jump leads to each of its kept targets.
    fn table<C: Numbered>(&mut self, code: &C, n: u32, k: u64) -> Result<(), Memory>
        requires kept { AreKept (C.map code.now) (C.number code.now) self.old }
        requires number { IsNumberOf (C.map code.now) (C.number code.now) n }
        requires has { IsSome (C.map code.now k) }
        ensures step { OnOk result (Step (C.map code.now) (C.number code.now)
            (λ seeds. All (LeadsOn (C.map code.now) (C.number code.now) seeds n)
            (targets_at (C.map code.now) k)) self.old self.new) }
        ensures led { OnOk result
            (All (IsLed (C.map code.now) (C.number code.now) self.new n)
            (targets_at (C.map code.now) k)) }
    {
        let targets = code.targets(k)?;
        for &b in &targets {
            self.lead(code, n, b)?;
        }
        Ok(())
    }
}

/// Whether one of the ways of a branch leads out of the code.
fn is_cut_off(taken: Option<u64>, fall: Option<u64>) -> bool
    ensures { IsTrue result ↔ IsCutOff taken fall }
{
    match (taken, fall) {
        (Some(_), Some(_)) => false,
        _ => true,
    }
}
