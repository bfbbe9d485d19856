//! Whole readings and writings over objects in memory that fail at a given call, or do not.
ghost use Rattle.cfg_io.specs.Opened.{IsOpened};

use crate::asserts::{holds, holds_at, same};
use cfg_io::{
    Failed, FileInput, Input, MAX_LIMIT, MemInput, MemSink, ReadEnd, Sink, StdSink, read_whole,
    write_whole,
};
use std::alloc::Global;
use std::process::Abort;
use std::test::Fail;
use std::{env, fs, process};

// `count` bytes, no two neighbours alike.
fn sample(rt: &HostRuntime, count: usize) -> Result<Vec<u8>, Fail> {
    let mut bytes = Vec::new(rt.alloc());
    for i in 0..count {
        bytes.push((i % 251) as u8)?;
    }
    Ok(bytes)
}

#[test]
fn an_input_is_read_whole(rt: HostRuntime) -> Result<(), Fail> {
    let alloc = rt.alloc();
    for (count, most) in [
        (0, 64),
        (1, 1),
        (264, 64),
        (70_000, 4096),
        (200_000, 1 << 20),
    ] {
        assert!(rt; most >= 1);
        let bytes = sample(&rt, count)?;
        let name = String::from_str(alloc, "one.elf")?;
        let mut input = MemInput::new(name, bytes.clone()?, most, Vec::new(alloc));
        input.open("one.elf")?;
        let read = read_whole(alloc, &mut input, 1_000_000)?;
        holds_at(&rt, &(count, most), read == bytes);
    }
    Ok(())
}

#[test]
fn the_limit_is_kept(rt: HostRuntime) -> Result<(), Fail> {
    let alloc = rt.alloc();
    for (limit, fits) in [(99, false), (100, true), (0, false)] {
        assert!(rt; limit <= 100);
        let name = String::from_str(alloc, "f")?;
        let mut input = MemInput::new(name, sample(&rt, 100)?, 64, Vec::new(alloc));
        input.open("f")?;
        match read_whole(alloc, &mut input, limit) {
            Ok(bytes) => holds_at(&rt, &limit, fits && bytes.len() == 100),
            Err(end) => holds_at(&rt, &limit, !fits && end == ReadEnd::OverLimit),
        }
    }
    Ok(())
}

#[test]
fn an_input_fails_at_its_calls(rt: HostRuntime) -> Result<(), Fail> {
    let alloc = rt.alloc();
    let name = String::from_str(alloc, "f")?;
    let mut refused = MemInput::new(name, sample(&rt, 264)?, 64, [1].to_vec(alloc)?);
    assert!(rt; refused.open("f") == Err(Failed));
    // Its second call is not in the list, but has another path.
    holds(&rt, refused.open("g") == Err(Failed));

    // Call 1 opens it, and call 3 is the second read.
    let name = String::from_str(alloc, "f")?;
    let mut input = MemInput::new(name, sample(&rt, 264)?, 64, [3].to_vec(alloc)?);
    input.open("f")?;
    match read_whole(alloc, &mut input, 1000) {
        Ok(_) => holds(&rt, false),
        Err(end) => same(&rt, &end, &ReadEnd::Read),
    }
    Ok(())
}

#[test]
fn a_text_is_written_whole(rt: HostRuntime) -> Result<(), Fail> {
    let alloc = rt.alloc();
    let text = sample(&rt, 177)?;
    let mut sink = MemSink::new(alloc, 1_048_576, 16, Vec::new(alloc))?;
    write_whole(&mut sink, &text)?;
    write_whole(&mut sink, &[])?;
    holds(&rt, sink.bytes() == text.as_slice());
    Ok(())
}

#[test]
fn a_sink_fails_at_its_calls(rt: HostRuntime) -> Result<(), Fail> {
    let alloc = rt.alloc();
    let text = sample(&rt, 177)?;
    // The third write fails; the room is full after the second.
    for (room, failing, written) in [(1_048_576, 3, 32), (20, 9, 20)] {
        let mut sink = MemSink::new(alloc, room, 16, [failing].to_vec(alloc)?)?;
        holds(&rt, write_whole(&mut sink, &text) == Err(Failed));
        holds(
            &rt,
            sink.bytes() == text.as_slice().get(..written).ok_or("short")?,
        );
    }
    Ok(())
}

#[test]
fn writes_until_there_is_no_room(rt: HostRuntime) -> Result<(), Fail> {
    let mut list = Vec::new(rt.alloc());
    let mut sink = StdSink::new(&mut list);
    same(&rt, &sink.write(b"four")?, &4);
    same(&rt, &list.as_slice(), &b"four".as_slice());

    // A slice takes no more bytes once it is full.
    let mut room = [0; 3];
    let mut sink = StdSink::new(room.as_mut_slice());
    same(&rt, &sink.write(b"four")?, &3);
    holds(&rt, sink.write(b"r") == Err(Failed));
    same(&rt, &room, &*b"fou");
    Ok(())
}

#[test]
fn a_missing_file_is_not_opened(rt: HostRuntime) {
    let mut missing = FileInput::new(&rt);
    assert!(rt; missing.open("/no/such/file") == Err(Failed));
    holds(&rt, missing.open("") == Err(Failed));
}

#[test]
fn reads_a_file(rt: HostRuntime) -> Result<(), Fail> {
    let folder = env::temp_dir(&rt)?;
    let id = process::id(rt.process());
    let path = format!(in rt.alloc(); "{}/test_bytes_{id}", folder.display())?;
    fs::write(&rt, path.as_str(), "four")?;
    let mut input = FileInput::new(&rt);
    let opened = input.open(path.as_str());
    fs::remove_file(&rt, path.as_str())?;
    opened?;
    expect_four(&rt, &mut input)
}

// The bytes of the file, and its end.
fn expect_four<I: Input>(rt: &impl Abort, input: &mut I) -> Result<(), Fail>
    requires { IsOpened (I.opened input.old) }
{
    let mut buf = [0; 8];
    same(rt, &input.read(&mut buf)?, &4);
    same(rt, &buf, &*b"four\0\0\0\0");
    same(rt, &input.read(&mut buf)?, &0);
    Ok(())
}
