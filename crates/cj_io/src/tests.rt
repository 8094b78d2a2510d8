ghost use Rattle.std.specs.Prelude.{◌<◌};

use crate::{
    Failed, Gate, MemSink, MemSource, OpenGate, ReadError, Source, WriteFault, read_all,
    write_whole,
};
use std::alloc::{AllocError, Global};
use std::test::Fail;

fn source(alloc: Global, text: &str, piece: usize, fails: &[u64]) -> Result<MemSource, AllocError>
    requires { 0 < piece }
{
    let bytes = Vec::from_slice(alloc, text.as_bytes())?;
    Ok(MemSource::new(bytes, piece, Vec::from_slice(alloc, fails)?))
}

#[test]
fn whole_reads_end_at_the_end_at_a_fault_or_past_the_limit(rt: HostRuntime) -> Result<(), Fail> {
    for (text, piece, fails, limit, want) in [
        ("", 1, 9, 0, Ok("")),
        ("hello", 1, 9, 5, Ok("hello")),
        ("hello", 1, 9, 4, Err(ReadError::TooLong { limit: 4 })),
        ("hello", 3, 9, 5, Ok("hello")),
        ("hello", 3, 9, 4, Err(ReadError::TooLong { limit: 4 })),
        ("hello", 64, 3, 64, Ok("hello")),
        ("hello", 64, 2, 64, Err(ReadError::ReadFault)),
        ("hello", 2, 2, 64, Err(ReadError::ReadFault)),
        ("hello", 2, 2, 1, Err(ReadError::TooLong { limit: 1 })),
    ] {
        assert!(rt; piece > 0);
        let mut source = source(rt.alloc(), text, piece, &[fails])?;
        match (read_all(rt.alloc(), &mut source, limit), want) {
            (Ok(all), Ok(text)) => assert_eq!(rt; all.as_slice(), text.as_bytes()),
            (Err(error), Err(wanted)) => assert_eq!(rt; error, wanted),
            _ => panic!(rt; "at {text:?} in pieces of {piece}"),
        }
    }
    Ok(())
}

#[test]
fn a_whole_read_is_longer_than_its_buffer(rt: HostRuntime) -> Result<(), Fail> {
    let bytes = vec![in rt.alloc(); 7; 10000]?;
    let mut source = MemSource::new(bytes, 5000, Vec::new(rt.alloc()));
    let all = read_all(rt.alloc(), &mut source, 10000)?;
    assert_eq!(rt; all, vec![in rt.alloc(); 7; 10000]?);
    Ok(())
}

#[test]
fn a_failed_read_keeps_the_bytes(rt: HostRuntime) -> Result<(), Fail> {
    let mut source = source(rt.alloc(), "hello", 2, &[2])?;
    let mut buf = [0; 8];
    assert_eq!(rt; source.read(&mut buf), Ok(2));
    assert_eq!(rt; source.read(&mut buf), Err(Failed));
    let all = read_all(rt.alloc(), &mut source, 3)?;
    assert_eq!(rt; all.as_slice(), "llo".as_bytes());
    Ok(())
}

#[test]
fn a_failed_write_leaves_the_pieces_before_it(rt: HostRuntime) -> Result<(), Fail> {
    let text = "call 1\nreturned 42\n".as_bytes();
    let mut sink = MemSink::new(rt.alloc(), 7, vec![in rt.alloc(); 2]?);
    let answer = write_whole(&mut sink, text);
    assert_eq!(rt; answer, Err(WriteFault { written: 7 }));
    assert_eq!(rt; sink.written(), "call 1\n".as_bytes());
    write_whole(&mut sink, &text[7..])?;
    assert_eq!(rt; sink.written(), text);

    let mut sink = MemSink::new(rt.alloc(), 1, Vec::new(rt.alloc()));
    write_whole(&mut sink, text)?;
    assert_eq!(rt; sink.written(), text);
    Ok(())
}

#[test]
fn errors_say_what_came(rt: HostRuntime) -> Result<(), Fail> {
    let long = format!(in rt.alloc(); "{}", ReadError::TooLong { limit: 4 })?;
    assert_eq!(rt; long.as_str(), "there are more than 4 bytes");
    let part = format!(in rt.alloc(); "{}", WriteFault { written: 7 })?;
    assert_eq!(rt; part.as_str(), "the sink failed after 7 bytes");
    Ok(())
}

// A gate is called from several threads.
fn pass<G: Gate + Sync>(gate: &G) {
    gate.before_call(1);
    gate.idle();
    gate.after_call(1);
}

#[test]
fn the_open_gate_holds_nobody_back(_rt: HostRuntime) {
    pass(&OpenGate);
}
