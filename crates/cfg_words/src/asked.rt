//! What can be asked for.

use graph_report::ReportKind;

/// What a command line asks for.
#[derive(Debug, Drop)]
pub enum Request {
    /// The report of a file.
    File {
        /// The path of the file.
        path: String,
        /// How many workers build the graph, 1 to 64.
        workers: u32,
        /// What is reported: the graph, a part of it, or the live registers.
        kind: ReportKind,
    },
    /// The summary of a made program.
    Make {
        /// The size of the program, 4 to 100,000.
        n: u32,
        /// How many workers build its graph, 1 to 64.
        workers: u32,
    },
}
