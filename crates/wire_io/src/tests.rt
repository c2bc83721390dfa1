ghost use Rattle.std.specs.Prelude.{◌<◌};

use super::*;
use plain_data::List;
use std::alloc::Global;
use std::test::Fail;

fn source(alloc: Global, bytes: &[u8], piece: usize, failing: &[u64]) -> Result<MemSource, Fail>
    requires { 0 < piece }
{
    Ok(MemSource::new(
        List::from_slice(alloc, bytes)?,
        piece,
        List::from_slice(alloc, failing)?,
    ))
}

#[test]
fn reads_lines(rt: HostRuntime) -> Result<(), Fail> {
    let mut source = source(rt.alloc(), b"one\r\n\ntwo\rx\nlast\r", 2, &[])?;
    let mut lines = Lines::new(rt.alloc());
    let mut all = Vec::new(rt.alloc());
    for _ in 0..9u8 {
        if lines.has_failed() {
            break;
        }
        match read_line(&mut lines, &mut source) {
            Ok(Line::Text(text)) => {
                all.extend_from_slice(text.as_slice())?;
                all.push(b'|')?;
            }
            Ok(Line::End) => break,
            Err(_) => break,
        }
    }
    assert_eq!(rt; all.as_slice(), b"one||two\rx|last\r|".as_slice());
    Ok(())
}

#[test]
fn writes_until_a_fault(rt: HostRuntime) -> Result<(), Fail> {
    let mut sink = MemSink::new(rt.alloc(), List::from_slice(rt.alloc(), &[1])?);
    assert_eq!(rt; write_all_of(&mut sink, b"first"), Ok(()));
    assert_eq!(rt; write_all_of(&mut sink, b"second"), Err(WriteFault));
    assert_eq!(rt; sink.held(), b"first".as_slice());
    Ok(())
}

#[test]
fn adapts_readers_and_writers(rt: HostRuntime) -> Result<(), Fail> {
    let mut source = StdSource::new(b"abc".as_slice());
    let mut piece = [0u8; 2];
    assert_eq!(rt; source.read(&mut piece), Ok(2));
    assert_eq!(rt; piece, *b"ab");
    assert_eq!(rt; source.read(&mut piece), Ok(1));
    assert_eq!(rt; source.read(&mut piece), Ok(0));
    let mut room = [0u8; 4];
    let mut sink = StdSink::new(room.as_mut_slice());
    assert_eq!(rt; write_all_of(&mut sink, b"abc"), Ok(()));
    assert_eq!(rt; write_all_of(&mut sink, b"de"), Err(WriteFault));
    Ok(())
}
