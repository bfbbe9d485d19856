//! One whole run of the program, over any input and any two sinks.

ghost use Rattle.std.specs.Prelude.{◌≡◌, ◌≢◌, ◌↔◌, ℕ, ◌⊎◌, List, Some, None};
ghost use Rattle.std.specs.Prelude.{IfSome, IfOk, IfErr, OnOk, IsErrOf};
ghost use Rattle.cfg_io.specs.Fault.{Rose};
ghost use Rattle.cfg_io.specs.Opened.{Nothing};
ghost use Rattle.run_ends.specs.Told.{Grows, Tells};
ghost use Rattle.run_ends.specs.Inputs.{OverInput, FileReadFor};
ghost use Rattle.walk_run.specs.Words.{of_walk, asked_by, path_of, AsksWalk};
ghost use Rattle.walk_run.specs.Answer.{IsAnswer, trace_answer, AsksTooMuch};
ghost use Rattle.walk_run.specs.Refusal.{status_of};
ghost use Rattle.walk_run.specs.Lines.{refusal_line};
ghost use Rattle.walk_run.specs.Run.{IsDecided, HasRead, Gives, GivesPart, IsLineOf};
ghost use Rattle.walk_run.specs.Inner.{IsTrueOf, end_of};

use crate::answer::trace_of;
use crate::refusal::Refusal;
use crate::status::WalkStatus;
use crate::words::request_of;
use cfg_io::{Failed, Input, Sink, write_whole};
use run_ends::read_file;
use std::alloc::Global;

/// Runs the program: reads the file that `words` ask for from `input`, writes the trace of its walk
/// to `out`, and reports on `err` why it did not. It starts no thread and waits for nobody.
///
/// The clause `answer` is what the program is for. If the words and the bytes decide the end of a
/// run, its status, standard output and standard error are exactly those of the answer to them. By
/// `complete` they do if neither the input nor standard output failed in this run and memory
/// sufficed. The other clauses say what holds if something failed.
///
/// Time: that of the file's graph, and linear in the steps. Memory: the file, its sections once
/// more, its graph, and 36 bytes for each step.
pub fn walk<I: Input, O: Sink, E: Sink>(
    alloc: Global,
    words: &[String],
    input: &mut I,
    out: &mut O,
    err: &mut E,
) -> WalkStatus
    requires { I.opened input.old ≡ Nothing }

    ensures answer { OverInput (path_of (asked_by words.now)) (I.rest input.old)
        (λ bytes. IsDecided result → Gives bytes (asked_by words.now) result
        (Grows (O.written out.old) (O.written out.new))
        (Tells (E.written err.old) (E.written err.new)
        (Rose (E.faults err.old) (E.faults err.new)))) }
    ensures complete { ¬ Rose (I.faults input.old) (I.faults input.new)
        → ¬ Rose (O.faults out.old) (O.faults out.new)
        → IsDecided result ⊎ (result ≡ WalkStatus.Memory) }

    // When each other status comes. Want of memory alone is free.
    ensures usage { (result ≡ WalkStatus.Usage) ↔ (asked_by words.now ≡ None) }
    ensures malformed { result ≡ WalkStatus.Malformed → AsksWalk (asked_by words.now) }
    ensures read_fault { result ≡ WalkStatus.ReadFault → AsksWalk (asked_by words.now)
        × Rose (I.faults input.old) (I.faults input.new) }
    ensures write_fault { result ≡ WalkStatus.WriteFault → AsksWalk (asked_by words.now)
        × Rose (O.faults out.old) (O.faults out.new) }
    ensures too_much { IfSome (I.rest input.old) (λ bytes. IsDecided result
        → AsksWalk (asked_by words.now) → (result ≡ WalkStatus.TooMuch) ↔ AsksTooMuch bytes) }

    // What else standard output holds, and what standard error does.
    ensures cut_off { IfSome (I.rest input.old) (λ bytes. result ≡ WalkStatus.WriteFault
        → GivesPart bytes (asked_by words.now) (O.written out.old) (O.written out.new)) }
    ensures silent { result ≢ WalkStatus.Done → result ≢ WalkStatus.WriteFault
        → O.written out.new ≡ O.written out.old }
    ensures error_line { (text : List ℕ) × IsLineOf result text
        × Tells (E.written err.old) (E.written err.new)
        (Rose (E.faults err.old) (E.faults err.new)) text }

    // What was done to the input.
    ensures input { FileReadFor (path_of (asked_by words.now)) (HasRead result)
        (result ≡ WalkStatus.Malformed) (I.tells_path input.old) (I.opened input.new)
        (I.rest input.old) (I.rest input.new) (I.faults input.old) (I.faults input.new) }
{
    let text = match trace_for(alloc, words, input) {
        Ok(text) => text,
        Err(refusal) => return refuse(refusal, err),
    };
    match write_whole(out, &text) {
        Ok(()) => WalkStatus::Done,
        Err(Failed) => refuse(Refusal::WriteFault, err),
    }
}

/// Ends a run that writes no whole trace.
pub fn refuse<E: Sink>(refusal: Refusal, err: &mut E) -> WalkStatus
    ensures status { result ≡ status_of refusal }
    ensures line { Tells (E.written err.old) (E.written err.new)
        (Rose (E.faults err.old) (E.faults err.new)) (refusal_line refusal) }
{
    refusal.report(err);
    refusal.status()
}

// The trace that is asked for.
fn trace_for<I: Input>(alloc: Global, words: &[String], input: &mut I) -> Result<Vec<u8>, Refusal>
    requires { I.opened input.old ≡ Nothing }

    ensures asked { OnOk result (AsksWalk (asked_by words.now)) }
    ensures done { IfOk result (λ text. IfSome (I.rest input.old)
        (λ bytes. IsAnswer bytes (asked_by words.now) (trace_answer text.items))) }
    ensures refused { IfErr result (IsTrueOf (asked_by words.now) (I.rest input.old)
        (Rose (I.faults input.old) (I.faults input.new))) }
    ensures usage { asked_by words.now ≡ None → IsErrOf result Refusal.Usage }

    ensures input { FileReadFor (path_of (asked_by words.now)) (HasRead (end_of result))
        (end_of result ≡ WalkStatus.Malformed) (I.tells_path input.old) (I.opened input.new)
        (I.rest input.old) (I.rest input.new) (I.faults input.old) (I.faults input.new) }
{
    match request_of(words) {
        None => Err(Refusal::Usage),
        Some(request) => file_trace(alloc, request.path, request.steps, input),
    }
}

// The trace of the file at a path.
fn file_trace<I: Input>(
    alloc: Global,
    path: &str,
    steps: u32,
    input: &mut I,
) -> Result<Vec<u8>, Refusal>
    requires { I.opened input.old ≡ Nothing }

    ensures done { IfOk result (λ text. IfSome (I.rest input.old)
        (λ bytes. IsAnswer bytes (Some (of_walk steps path.now)) (trace_answer text.items))) }
    ensures refused { IfErr result (IsTrueOf (Some (of_walk steps path.now)) (I.rest input.old)
        (Rose (I.faults input.old) (I.faults input.new))) }

    ensures input { FileReadFor (Some path.now) (HasRead (end_of result))
        (end_of result ≡ WalkStatus.Malformed) (I.tells_path input.old) (I.opened input.new)
        (I.rest input.old) (I.rest input.new) (I.faults input.old) (I.faults input.new) }
{
    let bytes = read_file(alloc, path, input)?;
    trace_of(alloc, bytes, steps)
}
