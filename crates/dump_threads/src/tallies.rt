//! The tallies that workers give when they end.

use anyhow::Result;
use core_state::WorkKind;
use crew::{Gate, Tally};
use std::alloc::Global;
use std::io::Write;
use std::sync::OnceLock;

/// A place for the tally of each worker.
#[derive(Drop)]
pub(crate) struct Tallies {
    by_worker: Vec<OnceLock<Tally>>,
}

impl Tallies {
    /// Empty places for this many workers.
    pub(crate) fn new(alloc: Global, workers: u32) -> Result<Tallies> {
        let mut by_worker = Vec::new(alloc);
        for _ in 0..workers {
            by_worker.push(OnceLock::new())?;
        }
        Ok(Tallies { by_worker })
    }

    /// A line for each worker that has ended, by rising number.
    pub(crate) fn write<W: Write>(&self, out: &mut W) -> Result<()> {
        for (worker, place) in self.by_worker.iter().enumerate() {
            if let Some(tally) = place.get() {
                write_tally(out, worker, tally)?;
            }
        }
        Ok(())
    }
}

/// The line of one worker. It has taken one turn for each try that it won.
fn write_tally<W: Write>(out: &mut W, worker: usize, tally: &Tally) -> Result<()> {
    let turns = tally.tries.saturating_sub(tally.lost);
    write!(out, "worker={worker} turns={turns} lost={}", tally.lost)?;
    write!(out, " kept={} put={}", tally.kept, tally.put)?;
    write!(
        out,
        " from_kept={} from_deques={} stolen={}",
        tally.from_kept, tally.from_deques, tally.stolen
    )?;
    writeln!(out, " made={}", tally.made)?;
    Ok(())
}

/// Holds nobody.
impl Gate for Tallies {
    fn before(&self, _worker: u32, _kind: WorkKind, _key: u64) {}

    fn ended(&self, worker: u32, tally: &Tally) {
        if let Some(place) = self.by_worker.get(worker as usize) {
            let _ = place.try_set(*tally);
        }
    }
}
