//! The flow of an instruction in its place: what its own flow is once targets outside the code are
//! dropped.

ghost use Rattle.std.specs.Prelude.{◌≡◌};
ghost use Rattle.code_view.specs.Flow.{straight_flow, jump_flow, call_flow, table_flow};

use cfg_model::Flow;
use jump_table::Table;

/// Straight on to `next`, if there is code, and else a stop.
pub fn straight_flow(next: Option<u64>) -> Flow
    ensures { result ≡ straight_flow next }
{
    match next {
        Some(next) => Flow::Straight { next },
        None => Flow::Stop,
    }
}

/// A jump to `target`, if there is code.
pub fn jump_flow(target: Option<u64>) -> Flow
    ensures { result ≡ jump_flow target }
{
    match target {
        Some(target) => Flow::Jump { target },
        None => Flow::Unknown,
    }
}

/// A call of `target`, if there is code, that returns to `fall`.
pub fn call_flow(target: Option<u64>, fall: Option<u64>) -> Flow
    ensures { result ≡ call_flow target fall }
{
    match target {
        Some(target) => Flow::Call { target, fall },
        None => Flow::IndirectCall { fall },
    }
}

/// A jump through `table`, if there is one; `cut` says how many of its entries are kept.
pub fn table_flow(cut: Option<u32>, table: Option<Table>) -> Flow
    ensures { result ≡ table_flow cut table }
{
    match table {
        Some(table) => {
            let entries = cut.unwrap_or(table.count);
            Flow::Table {
                entries,
                full: entries == table.bound,
                is_open: table.is_open,
            }
        }
        None => Flow::Unknown,
    }
}
