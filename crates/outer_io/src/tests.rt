//! The line reader over sources that cut and fail, and what sources and sinks move.
ghost use Rattle.std.specs.Prelude.{◌≡◌, None, false};

use super::*;
use std::alloc::Global;
use std::test::Fail;

// Lines of every kind: with a carriage return, empty, of a carriage return alone, of bytes that are
// no ASCII, and a last one that no line feed ends.
const TEXT: &[u8] = b"ab\r\n\ncd\n\r\n\x80\xFF \r\r\nlast\r";

// Their contents, each with a bar behind it.
const CONTENTS: &[u8] = b"ab||cd||\x80\xFF \r|last\r|";

/// Goes on to the last answer, and gives the contents before it, each with a bar behind it.
fn contents<S: Source>(
    alloc: Global,
    reader: &mut LineReader,
    source: &mut S,
) -> Result<(Vec<u8>, Result<Got, ReadStop>), Fail>
    requires { reader.old.stopped ≡ false }
{
    let mut text = Vec::new(alloc);
    let mut answer = Ok(Got::Line);
    let mut going = true;
    while going {
        answer = reader.next(source);
        going = matches!(answer, Ok(Got::Line));
        if going {
            text.extend_from_slice(reader.line())?;
            text.push(b'|')?;
        }
    }
    Ok((text, answer))
}

// Behind how many bytes each line that a line feed ends is whole, and how long the contents are then.
const WHOLE: [(usize, usize); 5] = [(4, 3), (5, 4), (8, 7), (10, 8), (16, 13)];

#[test]
fn any_pieces_and_a_failing_call(rt: HostRuntime) -> Result<(), Fail> {
    for (piece, calls) in [(1_usize, 21_u64), (3, 7), (16, 2), (4096, 1)] {
        assert!(rt; 0 < piece);
        for failing in 0..24_u64 {
            let bytes = Vec::from_slice(rt.alloc(), TEXT)?;
            let fails = vec![in rt.alloc(); failing]?;
            let mut source = MemSource::new(bytes, piece, fails);
            let mut reader = LineReader::new(rt.alloc())?;
            let (text, answer) = contents(rt.alloc(), &mut reader, &mut source)?;
            if failing > calls {
                assert_eq!(rt; answer, Ok(Got::End), "{piece} {failing}");
                assert_eq!(rt; text.as_slice(), CONTENTS, "{piece} {failing}");
            } else {
                let taken = piece.saturating_mul(usize::try_from(failing)?);
                let mut len = 0;
                for (end, contents) in WHOLE {
                    if end <= taken {
                        len = contents;
                    }
                }
                assert_eq!(rt; answer, Err(ReadStop::Failed), "{piece} {failing}");
                assert_eq!(rt;
                    Some(text.as_slice()),
                    CONTENTS.get(..len),
                    "{piece} {failing}"
                );
            }
        }
    }
    Ok(())
}

#[test]
fn contents_are_cut_after_1025_bytes(rt: HostRuntime) -> Result<(), Fail> {
    let table = [
        (1025, b"\n".as_slice(), 1025),
        (1024, b"\r\n", 1024),
        (1024, b"\ry\n", 1025),
        (1025, b"\r\n", 1025),
        (3_000_000, b"\n", 1025),
        (0, b"\n", 0),
        (0, b"\r\n", 0),
        (1024, b"\r", 1025),
    ];
    let mut bytes = Vec::new(rt.alloc());
    for (len, end, _) in table {
        bytes.resize(bytes.len().saturating_add(len), b'x')?;
        bytes.extend_from_slice(end)?;
    }
    let mut source = SureSource::new(bytes);
    let mut reader = LineReader::new(rt.alloc())?;
    let mut going = true;
    for (len, _, content) in table {
        if going {
            going = matches!(reader.next(&mut source), Ok(Got::Line));
            assert_eq!(rt; reader.line().len(), content, "{len}");
        }
    }
    assert!(rt; going);
    assert_eq!(rt; reader.next(&mut source), Ok(Got::End));
    Ok(())
}

/// A source that gives at most 65,533 bytes in a call, whatever stands in the buffer, and notes each
/// read that asks for less than 1,024 bytes.
#[derive(Drop)]
struct Noting {
    taken: u64,
    few: Vec<usize>,
    failed: bool,
}

impl Source for Noting {
    ghost supply = { λ s. record { left = None; taken = s.taken; ended = false; faults = 0 } };

    fn read(&mut self, buf: &mut [u8]) -> Result<usize, Failed> {
        if buf.len() < 1024 {
            self.failed = self.few.push(buf.len()).is_err();
        }
        let count = buf.len().min(65_533);
        self.taken = self.taken.saturating_add(count as u64);
        Ok(count)
    }
}

#[test]
fn reads_ask_for_1024_bytes_or_what_the_limit_leaves(rt: HostRuntime) -> Result<(), Fail> {
    let mut source = Noting {
        taken: 0,
        few: Vec::new(rt.alloc()),
        failed: false,
    };
    let mut reader = LineReader::after(rt.alloc(), 0xFFFF_FFFF - 2 * 65_533 - 8)?;
    assert_eq!(rt; reader.next(&mut source), Err(ReadStop::TooLong));
    assert_eq!(rt; source.taken, 2 * 65_533 + 8 + 1);
    assert_eq!(rt; source.few.as_slice(), [8, 1].as_slice());
    assert!(rt; !source.failed);
    Ok(())
}

#[test]
fn sources_and_sinks_move_bytes(rt: HostRuntime) -> Result<(), Fail> {
    let alloc = rt.alloc();
    let mut buf = [0; 4];
    let mut source = StdSource::new(b"abcdef".as_slice());
    assert_eq!(rt; source.read(&mut buf), Ok(4));
    assert_eq!(rt; buf, *b"abcd");
    let mut endless = EndlessSource::new(b'z');
    assert_eq!(rt; endless.read(&mut buf), Ok(4));
    assert_eq!(rt; buf, *b"zzzz");

    let mut sink = MemSink::new(alloc, 5, 3, vec![in alloc; 1]?)?;
    assert_eq!(rt; sink.write(b"abcd"), Ok(3));
    assert_eq!(rt; sink.flush(), Err(Failed));
    assert_eq!(rt; sink.write(b"efgh"), Ok(2));
    assert_eq!(rt; sink.write(b"i"), Err(Failed));
    assert_eq!(rt; sink.flushed(), 0);
    assert_eq!(rt; sink.flush(), Ok(()));
    assert_eq!(rt; sink.flushed(), 5);
    assert_eq!(rt; sink.bytes(), b"abcef".as_slice());

    let mut kept = Vec::new(alloc);
    let mut over = StdSink::new(&mut kept);
    assert_eq!(rt; over.write(b"abc"), Ok(3));
    assert_eq!(rt; over.flush(), Ok(()));
    drop(over);
    assert_eq!(rt; kept.as_slice(), b"abc".as_slice());
    assert_eq!(rt; SureSink::new().write(b"abc"), Ok(3));
    Ok(())
}
