//! The report of a graph whose parts are known from outside.

use crate::asserts::{holds, same};
use cfg_model::{
    Addresses, Block, Blocks, Edge, EdgeKind, Edges, EndKind, Function, Functions, Graph,
};
use elf_image::Image;
use elf_symbols::seeds;
use graph_report::{FileNames, ReportKind, ReportPieces, report, summary};
use std::alloc::{AllocError, Global};
use std::process::Abort;
use std::test::Fail;

/// A file of six instructions, each of four bytes: a jump to the next one, a return, a jump by 12
/// bytes, a return, `ebreak` and a return. The four instructions after the first are functions with
/// names: a dash, an `a` and a `b` with a space or a backslash between them, and the byte 80
/// (hexadecimal).
pub(crate) static NAMED_FILE: [u8; 480] = [
    0x7F, 0x45, 0x4C, 0x46, 2, 1, 1, 0, 0, 0, 0, 0, 0, 0, 0, 0, 2, 0, 0xF3, 0, 1, 0, 0, 0, 0, 0, 1,
    0, 0, 0, 0, 0, 0, 0, 0, 0, 0, 0, 0, 0, 0xE0, 0, 0, 0, 0, 0, 0, 0, 0, 0, 0, 0, 0x40, 0, 0, 0, 0,
    0, 0x40, 0, 4, 0, 0, 0, 0x6F, 0, 0x40, 0, 0x67, 0x80, 0, 0, 0x6F, 0, 0xC0, 0, 0x67, 0x80, 0, 0,
    0x73, 0, 0x10, 0, 0x67, 0x80, 0, 0, 0, 0, 0, 0, 0, 0, 0, 0, 0, 0, 0, 0, 0, 0, 0, 0, 0, 0, 0, 0,
    0, 0, 0, 0, 1, 0, 0, 0, 0x12, 0, 1, 0, 4, 0, 1, 0, 0, 0, 0, 0, 0, 0, 0, 0, 0, 0, 0, 0, 3, 0, 0,
    0, 0x12, 0, 1, 0, 8, 0, 1, 0, 0, 0, 0, 0, 0, 0, 0, 0, 0, 0, 0, 0, 7, 0, 0, 0, 0x12, 0, 1, 0,
    0x0C, 0, 1, 0, 0, 0, 0, 0, 0, 0, 0, 0, 0, 0, 0, 0, 0x0B, 0, 0, 0, 0x12, 0, 1, 0, 0x10, 0, 1, 0,
    0, 0, 0, 0, 0, 0, 0, 0, 0, 0, 0, 0, 0, 0x2D, 0, 0x61, 0x20, 0x62, 0, 0x61, 0x5C, 0x62, 0, 0x80,
    0, 0, 0, 0, 0, 0, 0, 0, 0, 0, 0, 0, 0, 0, 0, 0, 0, 0, 0, 0, 0, 0, 0, 0, 0, 0, 0, 0, 0, 0, 0, 0,
    0, 0, 0, 0, 0, 0, 0, 0, 0, 0, 0, 0, 0, 0, 0, 0, 0, 0, 0, 0, 0, 0, 0, 0, 0, 0, 0, 0, 0, 0, 0, 0,
    0, 0, 0, 0, 0, 0, 0, 0, 1, 0, 0, 0, 6, 0, 0, 0, 0, 0, 0, 0, 0, 0, 1, 0, 0, 0, 0, 0, 0x40, 0, 0,
    0, 0, 0, 0, 0, 0x18, 0, 0, 0, 0, 0, 0, 0, 0, 0, 0, 0, 0, 0, 0, 0, 4, 0, 0, 0, 0, 0, 0, 0, 0, 0,
    0, 0, 0, 0, 0, 0, 0, 0, 0, 0, 2, 0, 0, 0, 0, 0, 0, 0, 0, 0, 0, 0, 0, 0, 0, 0, 0, 0, 0, 0, 0x58,
    0, 0, 0, 0, 0, 0, 0, 0x78, 0, 0, 0, 0, 0, 0, 0, 3, 0, 0, 0, 1, 0, 0, 0, 8, 0, 0, 0, 0, 0, 0, 0,
    0x18, 0, 0, 0, 0, 0, 0, 0, 0, 0, 0, 0, 3, 0, 0, 0, 0, 0, 0, 0, 0, 0, 0, 0, 0, 0, 0, 0, 0, 0, 0,
    0, 0xD0, 0, 0, 0, 0, 0, 0, 0, 0x0D, 0, 0, 0, 0, 0, 0, 0, 0, 0, 0, 0, 0, 0, 0, 0, 1, 0, 0, 0, 0,
    0, 0, 0, 0, 0, 0, 0, 0, 0, 0, 0,
];

/// The blocks of that file: start, end, and what they end with.
pub(crate) static NAMED_BLOCKS: [(u64, u64, EndKind); 6] = [
    (0x10000, 0x10004, EndKind::Jump),
    (0x10004, 0x10008, EndKind::Return),
    (0x10008, 0x1000c, EndKind::Jump),
    (0x1000c, 0x10010, EndKind::Return),
    (0x10010, 0x10014, EndKind::Stop),
    (0x10014, 0x10018, EndKind::Return),
];

/// The edges of that file.
pub(crate) static NAMED_EDGES: [(u64, u64, EdgeKind); 2] = [
    (0x10000, 0x10004, EdgeKind::Tail),
    (0x10008, 0x10014, EdgeKind::Jump),
];

/// The functions of that file: entry, whether it may return, and the blocks of its body.
static NAMED_FUNCTIONS: [(u64, bool, &[u64]); 5] = [
    (0x10000, true, &[0x10000]),
    (0x10004, true, &[0x10004]),
    (0x10008, true, &[0x10008, 0x10014]),
    (0x1000c, true, &[0x1000c]),
    (0x10010, false, &[0x10010]),
];

/// The parts of its reports.
const HEADING: &str = "\
    cfg-report 2\n\
    entry 0000000000010000\n";

const FUNCTIONS: &str = "\
    functions 5\n\
    function 0000000000010000 may-return 1 -\n\
    in 0000000000010000\n\
    function 0000000000010004 may-return 1 \\x2d\n\
    in 0000000000010004\n\
    function 0000000000010008 may-return 2 a\\x20b\n\
    in 0000000000010008\n\
    in 0000000000010014\n\
    function 000000000001000c may-return 1 a\\\\b\n\
    in 000000000001000c\n\
    function 0000000000010010 no-return 1 \\x80\n\
    in 0000000000010010\n";

const BLOCKS: &str = "\
    blocks 6\n\
    block 0000000000010000 0000000000010004 jump\n\
    block 0000000000010004 0000000000010008 return\n\
    block 0000000000010008 000000000001000c jump\n\
    block 000000000001000c 0000000000010010 return\n\
    block 0000000000010010 0000000000010014 stop\n\
    block 0000000000010014 0000000000010018 return\n";

const EDGES: &str = "\
    edges 2\n\
    edge 0000000000010000 0000000000010004 tail\n\
    edge 0000000000010008 0000000000010014 jump\n";

/// A text of these parts and the last line.
fn text_of(alloc: Global, parts: &[&str]) -> Result<String, AllocError> {
    let mut text = String::new(alloc);
    for part in parts {
        text.push_str(part)?;
    }
    text.push_str("end\n")?;
    Ok(text)
}

/// The report of a graph in this file is this text.
fn prints(
    rt: &(impl Abort + AllocGlobal),
    file: &[u8],
    graph: &Graph,
    kind: ReportKind,
    want: &str,
) -> Result<(), Fail> {
    let alloc = rt.alloc();
    let image = Image::parse(alloc, Vec::from_slice(alloc, file)?)?;
    let seeds = seeds(alloc, &image)?;
    assert!(rt; kind != ReportKind::Live);
    let names = FileNames::new(&image, &seeds);
    let text = report(alloc, &names, graph, kind)?;
    same(rt, &text.as_slice(), &want.as_bytes());
    Ok(())
}

/// The graph with these blocks and edges, and no functions.
pub(crate) fn graph_of(
    alloc: Global,
    block_rows: &[(u64, u64, EndKind)],
    edge_rows: &[(u64, u64, EdgeKind)],
) -> Result<Graph, AllocError> {
    let mut blocks = Vec::new(alloc);
    for (start, end, kind) in block_rows {
        blocks.push(Block {
            start: *start,
            end: *end,
            kind: *kind,
        })?;
    }
    let mut edges = Vec::new(alloc);
    for (from, to, kind) in edge_rows {
        edges.push(Edge {
            from: *from,
            to: *to,
            kind: *kind,
        })?;
    }
    Ok(Graph {
        entry: 0x10000,
        functions: Functions::from_vec(Vec::new(alloc)),
        blocks: Blocks::from_vec(blocks),
        edges: Edges::from_vec(edges),
    })
}

/// The graph of the file with names.
pub(crate) fn named_graph(alloc: Global) -> Result<Graph, AllocError> {
    let mut functions = Vec::new(alloc);
    for &(entry, returns, body) in NAMED_FUNCTIONS.iter() {
        functions.push(Function {
            entry,
            returns,
            body: Addresses::from_vec(Vec::from_slice(alloc, body)?),
        })?;
    }
    let graph = graph_of(alloc, &NAMED_BLOCKS, &NAMED_EDGES)?;
    Ok(Graph {
        functions: Functions::from_vec(functions),
        ..graph
    })
}

#[test]
fn reports_of_each_kind(rt: HostRuntime) -> Result<(), Fail> {
    let kinds: [(ReportKind, &[&str]); 4] = [
        (ReportKind::Graph, &[HEADING, FUNCTIONS, BLOCKS, EDGES]),
        (ReportKind::Functions, &[HEADING, FUNCTIONS]),
        (ReportKind::Blocks, &[HEADING, BLOCKS]),
        (ReportKind::Edges, &[HEADING, EDGES]),
    ];
    let graph = named_graph(rt.alloc())?;
    for (kind, parts) in kinds {
        let want = text_of(rt.alloc(), parts)?;
        prints(&rt, &NAMED_FILE, &graph, kind, want.as_str())?;
    }
    Ok(())
}

#[test]
fn summary_of_counts(rt: HostRuntime) -> Result<(), Fail> {
    let want = "\
        cfg-made 4000000000\n\
        functions 5\n\
        blocks 6\n\
        edges 2\n\
        may-return 4\n\
        no-return 1\n";
    let graph = named_graph(rt.alloc())?;
    let text = summary(rt.alloc(), 4_000_000_000, &graph)?;
    same(&rt, &text.as_slice(), &want.as_bytes());
    Ok(())
}

/// How often the blocks of that file stand in a long report.
const TIMES: usize = 40;

/// A graph with enough blocks for a report of three pieces.
fn long_graph(alloc: Global) -> Result<Graph, AllocError> {
    let mut rows = Vec::new(alloc);
    for _ in 0..TIMES {
        rows.extend_from_slice(&NAMED_BLOCKS)?;
    }
    graph_of(alloc, &rows, &[])
}

/// The text of its report of blocks.
fn long_text(alloc: Global) -> Result<String, AllocError> {
    let mut text = String::from_str(alloc, HEADING)?;
    text.push_str("blocks 240\n")?;
    let lines = BLOCKS.strip_prefix("blocks 6\n").unwrap_or("");
    for _ in 0..TIMES {
        text.push_str(lines)?;
    }
    text.push_str("end\n")?;
    Ok(text)
}

/// The pieces are this text, in parts of these sizes.
fn are_pieces(rt: &impl Abort, pieces: &mut ReportPieces, text: &[u8], counts: &[usize]) {
    let mut left = text;
    for &count in counts {
        holds(rt, pieces.next_piece() == left.get(..count));
        left = left.get(count..).unwrap_or(b"");
    }
    holds(rt, left.is_empty());
    holds(rt, pieces.next_piece().is_none());
    holds(rt, pieces.next_piece().is_none());
}

#[test]
fn pieces_of_a_long_report(rt: HostRuntime) -> Result<(), Fail> {
    let alloc = rt.alloc();
    let graph = long_graph(alloc)?;
    let image = Image::parse(alloc, Vec::from_slice(alloc, &NAMED_FILE)?)?;
    let seeds = seeds(alloc, &image)?;
    let names = FileNames::new(&image, &seeds);
    let mut pieces = ReportPieces::new(alloc, &names, &graph, ReportKind::Blocks)?;
    let text = long_text(alloc)?;
    are_pieces(&rt, &mut pieces, text.as_bytes(), &[4096, 4096, 2899]);
    Ok(())
}

/// Where the names of that file stand in it, and how many bytes they take.
const NAMES_OFFSET: usize = 0xD0;

const NAMES_SIZE: usize = 13;

/// That file with another name for the function at 10004 (hexadecimal). Its names stand after all
/// else, with the new one as the last of them.
fn file_with_name(alloc: Global, name: &[u8]) -> Result<Vec<u8>, AllocError> {
    let mut front = NAMED_FILE;
    let size = (name.len() as u64).saturating_add(14);
    front[0x70] = NAMES_SIZE as u8;
    front[0x1B8..0x1C0].copy_from_slice(&480u64.to_le_bytes());
    front[0x1C0..0x1C8].copy_from_slice(&size.to_le_bytes());
    let mut file = Vec::from_slice(alloc, &front)?;
    file.extend_from_slice(&NAMED_FILE[NAMES_OFFSET..NAMES_OFFSET + NAMES_SIZE])?;
    file.extend_from_slice(name)?;
    file.push(0)?;
    Ok(file)
}

/// The graph with one function alone.
fn graph_of_one(
    alloc: Global,
    entry: u64,
    returns: bool,
    body: &[u64],
) -> Result<Graph, AllocError> {
    let mut functions = Vec::new(alloc);
    functions.push(Function {
        entry,
        returns,
        body: Addresses::from_vec(Vec::from_slice(alloc, body)?),
    })?;
    Ok(Graph {
        entry: 0x10000,
        functions: Functions::from_vec(functions),
        blocks: Blocks::from_vec(Vec::new(alloc)),
        edges: Edges::from_vec(Vec::new(alloc)),
    })
}

/// A text that a name repeats, how often, and how it is printed.
static NAMES: [(&[u8], usize, &str); 12] = [
    (b"a", 1, "a"),
    (b"a", 63, "a"),
    (b"b", 64, "b"),
    (b"c", 65, "c"),
    (b"d", 129, "d"),
    (b"\\", 70, "\\\\"),
    (b" first", 1, "\\x20first"),
    (b"mid\\dle", 1, "mid\\\\dle"),
    (b"last\x7f", 1, "last\\x7f"),
    (b"!~[]", 1, "!~[]"),
    (
        b"_ZNSt6vectorIiSaIiEE9push_backERKi",
        3,
        "_ZNSt6vectorIiSaIiEE9push_backERKi",
    ),
    (b"operator new[]\\\xff", 400, "operator\\x20new[]\\\\\\xff"),
];

/// The file whose function has this part, so often, for its name.
pub(crate) fn file_with_parts(
    alloc: Global,
    part: &[u8],
    count: usize,
) -> Result<Vec<u8>, AllocError> {
    let mut name = Vec::new(alloc);
    for _ in 0..count {
        name.extend_from_slice(part)?;
    }
    file_with_name(alloc, &name)
}

/// The report of that function.
fn text_with_parts(alloc: Global, part: &str, count: usize) -> Result<String, AllocError> {
    let mut text = String::from_str(alloc, HEADING)?;
    text.push_str("functions 1\nfunction 0000000000010004 may-return 0 ")?;
    for _ in 0..count {
        text.push_str(part)?;
    }
    text.push_str("\nend\n")?;
    Ok(text)
}

/// A name of this many parts is printed as this text, once for each part.
fn prints_name(
    rt: &(impl Abort + AllocGlobal),
    part: &[u8],
    count: usize,
    text: &str,
) -> Result<(), Fail> {
    let graph = graph_of_one(rt.alloc(), 0x10004, true, &[])?;
    let want = text_with_parts(rt.alloc(), text, count)?;
    let file = file_with_parts(rt.alloc(), part, count)?;
    prints(rt, &file, &graph, ReportKind::Functions, want.as_str())
}

#[test]
fn names_of_all_lengths(rt: HostRuntime) -> Result<(), Fail> {
    for &(part, count, text) in NAMES.iter() {
        prints_name(&rt, part, count, text)?;
    }
    Ok(())
}

/// Blocks and edges with an address that is the least or the greatest, or whose upper half is.
static FAR_BLOCKS: [(u64, u64, EndKind); 3] = [
    (0, 0xffff_ffff, EndKind::Fall),
    (0x1_0000_0000, u64::MAX, EndKind::TableOpen),
    (0x0123_4567_89ab_cdef, 0xfedc_ba98_7654_3210, EndKind::Stop),
];

static FAR_EDGES: [(u64, u64, EdgeKind); 2] = [
    (u64::MAX, 0, EdgeKind::After),
    (0xffff_ffff, 0x1_0000_0000, EdgeKind::Tail),
];

#[test]
fn addresses_of_each_half(rt: HostRuntime) -> Result<(), Fail> {
    let want = "\
        cfg-report 2\n\
        entry 0000000000010000\n\
        functions 0\n\
        blocks 3\n\
        block 0000000000000000 00000000ffffffff fall\n\
        block 0000000100000000 ffffffffffffffff table-open\n\
        block 0123456789abcdef fedcba9876543210 stop\n\
        edges 2\n\
        edge ffffffffffffffff 0000000000000000 after\n\
        edge 00000000ffffffff 0000000100000000 tail\n\
        end\n";
    let graph = graph_of(rt.alloc(), &FAR_BLOCKS, &FAR_EDGES)?;
    prints(&rt, &NAMED_FILE, &graph, ReportKind::Graph, want)
}

#[test]
fn bodies_at_each_half(rt: HostRuntime) -> Result<(), Fail> {
    let want = "\
        cfg-report 2\n\
        entry ffffffffffffffff\n\
        functions 1\n\
        function 0000000100000000 no-return 4 -\n\
        in 0000000000000000\n\
        in 00000000ffffffff\n\
        in 0000000100000000\n\
        in ffffffffffffffff\n\
        end\n";
    let body = [0, 0xffff_ffff, 0x1_0000_0000, u64::MAX];
    let mut graph = graph_of_one(rt.alloc(), 0x1_0000_0000, false, &body)?;
    graph.entry = u64::MAX;
    prints(&rt, &NAMED_FILE, &graph, ReportKind::Functions, want)
}
