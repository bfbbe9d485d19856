//! The summary of the graph of a program that was made from a number.

ghost use Rattle.std.specs.Prelude.{◌≡◌, IfOk};
ghost use Rattle.graph_report.specs.Summary.{may_return_count, no_return_count, summary_text};

use crate::Memory;
use crate::line::{push_function_count, push_made, push_may_return_count, push_no_return_count};
use crate::list_left::Listed;
use crate::page::Page;
use cfg_model::{Block, Edge, Function, Graph};
use std::alloc::Global;

/// The summary of `graph`, the graph of the program that is made from `n`, or want of memory: how
/// many functions, blocks and edges it has, and how many functions may return and may not.
///
/// The memory of the text is taken once.
/// Time: O(number of functions).
pub fn summary(alloc: Global, n: u32, graph: &Graph) -> Result<Vec<u8>, Memory>
    ensures text { IfOk result (λ v. v.items ≡ summary_text n graph.now) }
{
    let mut page = Page::new(alloc)?;
    push_made(&mut page, n);
    push_function_count(&mut page, graph.functions.as_slice().len());
    Block::push_count(&mut page, graph.blocks.as_slice().len());
    Edge::push_count(&mut page, graph.edges.as_slice().len());
    push_may_return_count(&mut page, may_return_count(graph.functions.as_slice()));
    push_no_return_count(&mut page, no_return_count(graph.functions.as_slice()));
    Ok(page.into_bytes())
}

/// How many of these functions may return.
fn may_return_count(functions: &[Function]) -> usize
    ensures { result ≡ may_return_count functions.now }
{
    functions.iter().filter(|f| f.returns).count()
}

/// How many of these functions may not return.
fn no_return_count(functions: &[Function]) -> usize
    ensures { result ≡ no_return_count functions.now }
{
    functions.iter().filter(|f| !f.returns).count()
}
