//! Worked certificates of files without jump tables: which are valid, and which are not since one
//! thing of them is spoilt; and the graph that a valid one tells.

ghost use Rattle.cfg_vectors.specs.Rows.{IsRow};

use crate::asserts::holds;
use cert_check::{graph_of_part, outline_of_part};
use cert_text::parse;
use cfg_model::{Block, Edge, EdgeKind, EndKind, Graph};
use cfg_vectors::row_file;
use chain_index::ChainIndex;
use code_view::{Calls, Code, Cuts};
use elf_image::Image;
use std::alloc::Global;
use std::process::Abort;
use std::test::Fail;

/// Where the code of a row's file begins, its one seed.
const CODE: u64 = 0x10000;

/// Row 1: the canonical certificate, and one whose ranks are not least.
const VALID_1: [&[u8]; 2] = [
    b"cfg-cert 1
part none
ret 0000000000010000 0 self
lead 0000000000010000 0 seed
end
",
    b"cfg-cert 1
part none
ret 0000000000010000 7 self
lead 0000000000010000 9 seed
end
",
];

/// Row 1: without its return, without its leader, with a return for a wrong reason, with a line of
/// what is no code.
const SPOILT_1: [&[u8]; 4] = [
    b"cfg-cert 1
part none
lead 0000000000010000 0 seed
end
",
    b"cfg-cert 1
part none
ret 0000000000010000 0 self
end
",
    b"cfg-cert 1
part none
ret 0000000000010000 1 to 0000000000010000
lead 0000000000010000 0 seed
end
",
    b"cfg-cert 1
part none
ret 0000000000010000 0 self
lead 0000000000010000 0 seed
lead 0000000000090000 1 from 0000000000010000
end
",
];

/// Row 8: the canonical certificate, and one whose ranks are not least.
const VALID_8: [&[u8]; 2] = [
    b"cfg-cert 1
part none
ret 0000000000010004 1 to 0000000000010008
ret 0000000000010008 0 self
lead 0000000000010000 0 seed
lead 0000000000010002 1 from 0000000000010000
lead 0000000000010004 2 join 0000000000010002 0000000000010000
lead 0000000000010008 1 from 0000000000010000
end
",
    b"cfg-cert 1
part none
ret 0000000000010004 18446744073709551615 to 0000000000010008
ret 0000000000010008 4 self
lead 0000000000010000 3 seed
lead 0000000000010002 5 from 0000000000010000
lead 0000000000010004 8 join 0000000000010002 0000000000010000
lead 0000000000010008 9 from 0000000000010004
end
",
];

/// Row 8, spoilt in one place each: without one line; with a rank that is not above that of what the
/// reason rests on; with a reason that does not hold; with a line too many.
const SPOILT_8: [&[u8]; 14] = [
    // Without the join the branch lies in two blocks.
    b"cfg-cert 1
part none
ret 0000000000010004 1 to 0000000000010008
ret 0000000000010008 0 self
lead 0000000000010000 0 seed
lead 0000000000010002 1 from 0000000000010000
lead 0000000000010008 1 from 0000000000010000
end
",
    // Without the seed.
    b"cfg-cert 1
part none
ret 0000000000010004 1 to 0000000000010008
ret 0000000000010008 0 self
lead 0000000000010002 1 from 0000000000010004
lead 0000000000010004 0 seed
lead 0000000000010008 1 from 0000000000010004
end
",
    // Without the taken target of the branch.
    b"cfg-cert 1
part none
ret 0000000000010004 1 to 0000000000010008
ret 0000000000010008 0 self
lead 0000000000010000 0 seed
lead 0000000000010008 1 from 0000000000010000
end
",
    // Without the return of the last block.
    b"cfg-cert 1
part none
lead 0000000000010000 0 seed
lead 0000000000010002 1 from 0000000000010000
lead 0000000000010004 2 join 0000000000010002 0000000000010000
lead 0000000000010008 1 from 0000000000010000
end
",
    // Without the return of the branch.
    b"cfg-cert 1
part none
ret 0000000000010008 0 self
lead 0000000000010000 0 seed
lead 0000000000010002 1 from 0000000000010000
lead 0000000000010004 2 join 0000000000010002 0000000000010000
lead 0000000000010008 1 from 0000000000010000
end
",
    // A return of the rank of the one that it rests on.
    b"cfg-cert 1
part none
ret 0000000000010004 0 to 0000000000010008
ret 0000000000010008 0 self
lead 0000000000010000 0 seed
lead 0000000000010002 1 from 0000000000010000
lead 0000000000010004 2 join 0000000000010002 0000000000010000
lead 0000000000010008 1 from 0000000000010000
end
",
    // A leader of the rank of the one that it rests on.
    b"cfg-cert 1
part none
ret 0000000000010004 1 to 0000000000010008
ret 0000000000010008 0 self
lead 0000000000010000 0 seed
lead 0000000000010002 0 from 0000000000010000
lead 0000000000010004 2 join 0000000000010002 0000000000010000
lead 0000000000010008 1 from 0000000000010000
end
",
    // A join of the rank of one of its sides.
    b"cfg-cert 1
part none
ret 0000000000010004 1 to 0000000000010008
ret 0000000000010008 0 self
lead 0000000000010000 0 seed
lead 0000000000010002 1 from 0000000000010000
lead 0000000000010004 1 join 0000000000010002 0000000000010000
lead 0000000000010008 1 from 0000000000010000
end
",
    // A join with its sides exchanged.
    b"cfg-cert 1
part none
ret 0000000000010004 1 to 0000000000010008
ret 0000000000010008 0 self
lead 0000000000010000 0 seed
lead 0000000000010002 1 from 0000000000010000
lead 0000000000010004 2 join 0000000000010000 0000000000010002
lead 0000000000010008 1 from 0000000000010000
end
",
    // A join with one side for both.
    b"cfg-cert 1
part none
ret 0000000000010004 1 to 0000000000010008
ret 0000000000010008 0 self
lead 0000000000010000 0 seed
lead 0000000000010002 1 from 0000000000010000
lead 0000000000010004 2 join 0000000000010000 0000000000010000
lead 0000000000010008 1 from 0000000000010000
end
",
    // A leader that no terminator leads to.
    b"cfg-cert 1
part none
ret 0000000000010004 1 to 0000000000010008
ret 0000000000010008 0 self
lead 0000000000010000 0 seed
lead 0000000000010002 1 from 0000000000010000
lead 0000000000010004 2 from 0000000000010000
lead 0000000000010008 1 from 0000000000010000
end
",
    // A seed that is none.
    b"cfg-cert 1
part none
ret 0000000000010004 1 to 0000000000010008
ret 0000000000010008 0 self
lead 0000000000010000 0 seed
lead 0000000000010002 1 seed
lead 0000000000010004 2 join 0000000000010002 0000000000010000
lead 0000000000010008 1 from 0000000000010000
end
",
    // The branch does not return by itself.
    b"cfg-cert 1
part none
ret 0000000000010004 1 self
ret 0000000000010008 0 self
lead 0000000000010000 0 seed
lead 0000000000010002 1 from 0000000000010000
lead 0000000000010004 2 join 0000000000010002 0000000000010000
lead 0000000000010008 1 from 0000000000010000
end
",
    // Nor is it a call.
    b"cfg-cert 1
part none
ret 0000000000010004 1 call
ret 0000000000010008 0 self
lead 0000000000010000 0 seed
lead 0000000000010002 1 from 0000000000010000
lead 0000000000010004 2 join 0000000000010002 0000000000010000
lead 0000000000010008 1 from 0000000000010000
end
",
];

/// Whether the part of the certificate of this text is valid for a row's file.
fn is_valid(alloc: Global, row: u32, text: &[u8]) -> Result<bool, Fail>
    requires { IsRow row 0 }
{
    let image = Image::parse(alloc, row_file(alloc, row, 0)?)?;
    let index = ChainIndex::new(alloc, &image)?;
    let calls = Calls::of(alloc, &image)?;
    let none = Cuts::none(alloc);
    let code = Code::new(&image, &index, &calls, &none);
    let certificate = parse(alloc, text)?;
    let outline = outline_of_part(alloc, &code, &[CODE], &certificate.part)?;
    Ok(outline.is_some())
}

#[test]
fn certificates_of_row_1(rt: HostRuntime) -> Result<(), Fail> {
    for text in VALID_1 {
        holds(&rt, is_valid(rt.alloc(), 1, text)?);
    }
    for text in SPOILT_1 {
        holds(&rt, !is_valid(rt.alloc(), 1, text)?);
    }
    Ok(())
}

#[test]
fn certificates_of_row_8(rt: HostRuntime) -> Result<(), Fail> {
    for text in VALID_8 {
        holds(&rt, is_valid(rt.alloc(), 8, text)?);
    }
    for text in SPOILT_8 {
        holds(&rt, !is_valid(rt.alloc(), 8, text)?);
    }
    Ok(())
}

/// The blocks and edges of row 8 of `docs/ROWS.md`.
const BLOCKS_8: [Block; 4] = [
    Block {
        start: 0x10000,
        end: 0x10004,
        kind: EndKind::Fall,
    },
    Block {
        start: 0x10002,
        end: 0x10004,
        kind: EndKind::Fall,
    },
    Block {
        start: 0x10004,
        end: 0x10008,
        kind: EndKind::Branch,
    },
    Block {
        start: 0x10008,
        end: 0x1000C,
        kind: EndKind::Return,
    },
];

const EDGES_8: [Edge; 4] = [
    Edge {
        from: 0x10000,
        to: 0x10004,
        kind: EdgeKind::Fall,
    },
    Edge {
        from: 0x10002,
        to: 0x10004,
        kind: EdgeKind::Fall,
    },
    Edge {
        from: 0x10004,
        to: 0x10002,
        kind: EdgeKind::Taken,
    },
    Edge {
        from: 0x10004,
        to: 0x10008,
        kind: EdgeKind::Fall,
    },
];

/// The body of the one function of row 8.
const BODY_8: [u64; 4] = [0x10000, 0x10002, 0x10004, 0x10008];

/// The graph of a row's file by the first part of the certificate of this text, if that is valid.
fn graph_by(alloc: Global, row: u32, text: &[u8]) -> Result<Option<Graph>, Fail>
    requires { IsRow row 0 }
{
    let image = Image::parse(alloc, row_file(alloc, row, 0)?)?;
    let index = ChainIndex::new(alloc, &image)?;
    let calls = Calls::of(alloc, &image)?;
    let none = Cuts::none(alloc);
    let code = Code::new(&image, &index, &calls, &none);
    let certificate = parse(alloc, text)?;
    let graph = graph_of_part(alloc, &code, CODE, &[CODE], &certificate.part)?;
    Ok(graph)
}

/// Whether this is the graph of row 8.
fn is_graph_of_row_8(graph: &Graph) -> bool {
    let functions = graph.functions.as_slice();
    graph.entry == CODE
        && graph.blocks.as_slice() == BLOCKS_8.as_slice()
        && graph.edges.as_slice() == EDGES_8.as_slice()
        && functions.len() == 1
        && functions[0].entry == CODE
        && functions[0].returns
        && functions[0].body.as_slice() == BODY_8.as_slice()
}

#[test]
fn graph_of_row_8(rt: HostRuntime) -> Result<(), Fail> {
    for text in VALID_8 {
        let graph = graph_by(rt.alloc(), 8, text)?;
        holds(&rt, graph.is_some_and(|graph| is_graph_of_row_8(&graph)));
    }
    holds(&rt, graph_by(rt.alloc(), 8, SPOILT_8[0])?.is_none());
    Ok(())
}
