//! How many workers a step is worth, by its work: what `docs/PERFORMANCE.md` says of it. No contract
//! does, so a body that answers 1 would prove.

use crate::asserts::same_at;
use file_crew::{Step, workers_worth};
use std::test::Fail;

/// A step, its work, the workers that there are, and those that it is worth.
static SIZES: [(Step, usize, u32, u32); 19] = [
    (Step::Tables, 0, 64, 1),
    (Step::Tables, 196_607, 64, 1),
    (Step::Tables, 196_608, 64, 3),
    (Step::Tables, 196_608, 2, 2),
    (Step::Tables, 196_608, 1, 1),
    (Step::Tables, 524_287, 8, 7),
    (Step::Tables, 524_288, 8, 8),
    (Step::Tables, 67_108_864, 64, 64),
    (Step::Outline, 98_303, 4, 1),
    (Step::Outline, 98_304, 4, 3),
    (Step::Outline, 2_097_152, 64, 64),
    (Step::Outline, 2_097_151, 64, 63),
    (Step::Functions, 24_575, 17, 1),
    (Step::Functions, 24_576, 17, 3),
    (Step::Functions, 139_263, 17, 16),
    (Step::Functions, 1_000_000, 17, 17),
    (Step::Tails, 49_151, 8, 1),
    (Step::Tails, 49_152, 8, 3),
    (Step::Tails, 131_072, 8, 8),
];

#[test]
fn a_step_is_worth_its_shares(rt: HostRuntime) -> Result<(), Fail> {
    for (number, (step, work, workers, want)) in SIZES.iter().enumerate() {
        assert!(rt; *workers >= 1);
        same_at(&rt, &number, &workers_worth(*step, *work, *workers), want);
    }
    Ok(())
}
