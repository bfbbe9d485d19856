//! The straight way to a jump.

ghost use Rattle.std.specs.Prelude.{◌≡◌, ◌+◌, ◌-◌, ◌*◌, ◌<◌, ◌≤◌, IfSome};
ghost use Rattle.std.proofs.Props.{props};
ghost use Rattle.jump_table.specs.Inner.Steps.{AreSteps, AreStepsBelow, IsStepAt};

use crate::step::{Step, straight_at};
use elf_image::Image;

/// How far before the jump a run to it begins, in parcels of two bytes: 16 instructions of four.
pub(crate) const MOST_PARCELS: usize = 32;

/// The instructions before a jump that lead straight to it, within its code section.
#[derive(Clone, Copy)]
pub(crate) struct Approach<'a> {
    pub(crate) image: &'a Image,
    /// The address of the code section.
    pub(crate) start: u64,
    /// The address of the jump.
    pub(crate) jump: u64,
    /// The instruction this many parcels of two bytes before the jump; none if no straight run
    /// leads from there to the jump. The place 0 is that of the jump and stays empty.
    pub(crate) steps: [Option<Step>; MOST_PARCELS + 1],
    pub(crate) ghost inside: { start ≤ jump },
    pub(crate) ghost lead: { AreSteps image.now start jump steps } by { Prim.hlevel props },
}

impl<'a> Approach<'a> {
    /// The way to the jump at `jump`, in the code section that starts at `start`.
    pub(crate) fn new(image: &'a Image, start: u64, jump: u64) -> Approach<'a>
        requires { start ≤ jump }
        ensures image { result.image.now ≡ image.now }
        ensures start { result.start ≡ start }
        ensures jump { result.jump ≡ jump }
    {
        let steps = steps_before(image, start, jump);
        Approach {
            image,
            start,
            jump,
            steps,
        }
    }
}

/// The steps before the jump at `jump`, found from it backwards. Of two parcels that follow each
/// other a run to the jump stands on one, so if neither leads there nothing further away does.
fn steps_before(image: &Image, start: u64, jump: u64) -> [Option<Step>; MOST_PARCELS + 1]
    requires { start ≤ jump }
    ensures { AreSteps image.now start jump result }
{
    let mut steps = [None; MOST_PARCELS + 1];
    for parcels in 1..=MOST_PARCELS {
        if jump - start < 2 * parcels as u64 {
            return steps;
        }
        let step = step_at(image, start, jump, &steps, parcels);
        if step.is_none() && parcels > 1 && steps[parcels - 1].is_none() {
            return steps;
        }
        steps[parcels] = step;
    }
    steps
}

/// The step that is `parcels` before the jump, if those nearer to it are known.
fn step_at(
    image: &Image,
    start: u64,
    jump: u64,
    steps: &[Option<Step>; MOST_PARCELS + 1],
    parcels: usize,
) -> Option<Step>
    requires some { 0 < parcels }
    requires few { parcels < 33 }
    requires inside { start + 2 * parcels ≤ jump }
    requires nearer { AreStepsBelow image.now start jump parcels steps.now }
    ensures { IsStepAt image.now start jump parcels result }
{
    let placed = straight_at(image, start, jump - 2 * parcels as u64)?;
    let next = parcels.checked_sub(usize::from(placed.length / 2))?;
    if next > 0 && steps[next].is_none() {
        return None;
    }
    Some(Step {
        insn: placed.insn,
        next,
    })
}
