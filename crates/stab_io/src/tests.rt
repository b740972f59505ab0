ghost use Rattle.std.specs.Prelude.{◌≡◌, IfOk};

use super::*;
use std::alloc::{AllocError, Global};
use std::io;
use std::io::{ErrorKind, Read, Write};
use std::test::Fail;

// The lines, each with a bar, and then the letters of two answers that are no line.
fn answers<S: Source>(
    alloc: Global,
    reader: &mut LineReader,
    source: &mut S,
) -> Result<Vec<u8>, AllocError> {
    let mut text = Vec::new(alloc);
    let mut ended = false;
    for _ in 0..9 {
        let letter = match reader.next_line(source) {
            Ok(Some(line)) => {
                text.extend_from_slice(&line)?;
                text.push(b'|')?;
                continue;
            }
            Ok(None) => b'.',
            Err(LineFault::Read) => b'R',
            Err(LineFault::LineLimit { .. }) => b'L',
            Err(LineFault::InputLimit { .. }) => b'I',
            Err(LineFault::Memory) => return Err(AllocError),
        };
        text.push(letter)?;
        if ended {
            break;
        }
        ended = true;
    }
    Ok(text)
}

fn mem_source(alloc: Global, bytes: &[u8], failing: &[u64]) -> Result<MemSource, AllocError> {
    let bytes = Vec::from_slice(alloc, bytes)?;
    let failing = Vec::from_slice(alloc, failing)?;
    Ok(MemSource::new(bytes, failing))
}

#[test]
fn lines_stop_at_the_limits(rt: HostRuntime) -> Result<(), Fail> {
    let table: [(&[u8], &[u8]); 14] = [
        (b"", b".."),
        (b"a", b"a|.."),
        (b"a\n", b"a|.."),
        (b"\n\nb", b"||b|.."),
        (b"abc\n", b"abc|.."),
        (b"abcd", b"LL"),
        (b"ab\nabcd\nx", b"ab|LL"),
        (b"abc\nabc\n", b"abc|abc|.."),
        (b"abc\nabc\n\n", b"abc|abc|II"),
        (b"abc\nabc\na", b"abc|abc|II"),
        (b"abc\nabcd\n", b"abc|LL"),
        (b"abc\n\nabcd", b"abc||LL"),
        (b"abc\n\n\nabcd", b"abc|||II"),
        (b"abc\n\nabc\n", b"abc||II"),
    ];
    for (bytes, want) in table {
        let mut source = mem_source(rt.alloc(), bytes, &[])?;
        let limits = Limits { line: 3, input: 8 };
        let mut reader = LineReader::with_limits(rt.alloc(), limits);
        let found = answers(rt.alloc(), &mut reader, &mut source)?;
        assert_eq!(rt; found.as_slice(), want);
    }
    Ok(())
}

#[test]
fn a_failing_take_ends_the_lines(rt: HostRuntime) -> Result<(), Fail> {
    // Takes end at byte 64, at byte 128, and at the end, which the fourth take shows.
    let mut bytes = Vec::new(rt.alloc());
    let mut lines = Vec::new(rt.alloc());
    for (letter, len) in [(b'a', 60), (b'b', 60), (b'c', 28)] {
        for _ in 0..len {
            bytes.push(letter)?;
            lines.push(letter)?;
        }
        bytes.push(b'\n')?;
        lines.push(b'|')?;
    }
    bytes.truncate(150);
    for (call, len, end) in [
        (0, 0, b"RR"),
        (1, 61, b"RR"),
        (2, 122, b"RR"),
        (3, 122, b"RR"),
        (4, 151, b"RR"),
        (9, 151, b".."),
    ] {
        let mut source = mem_source(rt.alloc(), &bytes, &[call])?;
        let mut reader = LineReader::new(rt.alloc());
        let found = answers(rt.alloc(), &mut reader, &mut source)?;
        let mut want = lines.clone()?;
        want.truncate(len);
        want.extend_from_slice(end)?;
        assert_eq!(rt; found.as_slice(), want.as_slice(), "at {call}");
    }
    Ok(())
}

// Before each line a plus where a byte comes, then the line with a bar, and at last a letter for what is no byte.
fn asked_first<S: Source>(
    alloc: Global,
    reader: &mut LineReader,
    source: &mut S,
) -> Result<Vec<u8>, Fail> {
    let mut text = Vec::new(alloc);
    for _ in 0..9 {
        let ended = match reader.goes_on(source) {
            Ok(true) => {
                text.push(b'+')?;
                if let Some(line) = reader.next_line(source)? {
                    text.extend_from_slice(&line)?;
                    text.push(b'|')?;
                }
                continue;
            }
            Ok(false) => b'.',
            Err(LineFault::Read) => b'R',
            Err(LineFault::InputLimit { .. }) => b'I',
            Err(_) => b'X',
        };
        text.push(ended)?;
        break;
    }
    Ok(text)
}

#[test]
fn a_byte_more_is_told(rt: HostRuntime) -> Result<(), Fail> {
    let table: [(&[u8], &[u64], &[u8]); 7] = [
        (b"", &[], b"."),
        (b"a", &[], b"+a|."),
        (b"\n\nb", &[], b"+|+|+b|."),
        (b"abc\nabc\n", &[], b"+abc|+abc|."),
        (b"abc\nabc\na", &[], b"+abc|+abc|I"),
        (b"abc\n", &[0], b"R"),
        (b"abc\n", &[1], b"+abc|R"),
    ];
    for (bytes, failing, want) in table {
        let mut source = mem_source(rt.alloc(), bytes, failing)?;
        let limits = Limits { line: 3, input: 8 };
        let mut reader = LineReader::with_limits(rt.alloc(), limits);
        let found = asked_first(rt.alloc(), &mut reader, &mut source)?;
        assert_eq!(rt; found.as_slice(), want);
    }
    Ok(())
}

#[test]
fn a_failing_put_adds_half(rt: HostRuntime) -> Result<(), Fail> {
    let table: [(u64, &[u8]); 4] = [
        (0, b"a"),
        (1, b"ab\ncd"),
        (2, b"ab\ncdefg"),
        (3, b"ab\ncdefgx"),
    ];
    for (call, want) in table {
        let failing = Vec::from_slice(rt.alloc(), &[call])?;
        let mut sink = MemSink::new(rt.alloc(), failing);
        let pieces: [&[u8]; 3] = [b"ab\n", b"cdefg", b"x"];
        for piece in pieces {
            if sink.put(piece).is_err() {
                break;
            }
        }
        assert_eq!(rt; sink.bytes(), want);
    }
    Ok(())
}

// Gives and takes one byte a call, behind as many interrupted calls as are left.
#[derive(Drop)]
struct Slow {
    // to give, the last one first
    given: Vec<u8>,
    taken: Vec<u8>,
    room: usize,
    interruptions: u32,
    breaks: bool,
}

impl Slow {
    fn new(
        alloc: Global,
        room: usize,
        interruptions: u32,
        breaks: bool,
    ) -> Result<Slow, AllocError> {
        Ok(Slow {
            given: Vec::from_slice(alloc, b"c\nba")?,
            taken: Vec::new(alloc),
            room,
            interruptions,
            breaks,
        })
    }

    fn interrupted(&mut self) -> io::Result<()> {
        if self.interruptions == 0 {
            return Ok(());
        }
        self.interruptions -= 1;
        Err(io::Error::new(ErrorKind::Interrupted, "a signal"))
    }

    fn end(&self) -> io::Result<usize>
        ensures { IfOk result (λ n. n ≡ 0) }
    {
        if self.breaks {
            return Err(io::Error::other("broken"));
        }
        Ok(0)
    }
}

impl Read for Slow {
    fn read(&mut self, buf: &mut [u8]) -> io::Result<usize> {
        self.interrupted()?;
        let Some(byte) = self.given.pop() else {
            return self.end();
        };
        let Some(place) = buf.first_mut() else {
            return Ok(0);
        };
        *place = byte;
        Ok(1)
    }
}

impl Write for Slow {
    fn write(&mut self, buf: &[u8]) -> io::Result<usize> {
        self.interrupted()?;
        let Some(byte) = buf.first() else {
            return Ok(0);
        };
        if self.taken.len() >= self.room {
            return self.end();
        }
        self.taken.push(*byte)?;
        Ok(1)
    }

    fn flush(&mut self) -> io::Result<()> {
        Ok(())
    }
}

#[test]
fn a_reader_of_std_is_a_source(rt: HostRuntime) -> Result<(), Fail> {
    for (interruptions, breaks, want) in [
        (0, false, b"ab|c|..".as_slice()),
        (1_000, false, b"ab|c|.."),
        (1_001, false, b"RR"),
        (0, true, b"ab|RR"),
    ] {
        let slow = Slow::new(rt.alloc(), 0, interruptions, breaks)?;
        let mut source = ReaderSource::new(slow);
        let mut reader = LineReader::new(rt.alloc());
        let found = answers(rt.alloc(), &mut reader, &mut source)?;
        assert_eq!(rt; found.as_slice(), want);
    }
    let text: &[u8] = b"a\nb";
    let mut source = ReaderSource::new(text);
    let mut buffer = [0u8; 3];
    assert_eq!(rt; source.take(&mut buffer)?, 3);
    assert_eq!(rt; source.into_reader(), b"".as_slice());
    Ok(())
}

#[test]
fn a_writer_of_std_is_a_sink(rt: HostRuntime) -> Result<(), Fail> {
    for (interruptions, room, breaks, want) in [
        (0, 3, false, b"abc".as_slice()),
        (1_000, 3, false, b"abc"),
        (1_001, 3, false, b""),
        (0, 2, false, b"ab"),
        (0, 2, true, b"ab"),
    ] {
        let mut sink = WriterSink::new(Slow::new(rt.alloc(), room, interruptions, breaks)?);
        assert_eq!(rt; sink.put(b"abc").is_ok(), want.len() == 3);
        assert_eq!(rt; sink.into_writer().taken.as_slice(), want);
    }
    let mut sink = WriterSink::new(Vec::new(rt.alloc()));
    sink.put(b"ab")?;
    assert_eq!(rt; sink.into_writer().as_slice(), b"ab".as_slice());
    Ok(())
}

#[test]
fn a_sink_gives_its_bytes_back(rt: HostRuntime) -> Result<(), Fail> {
    let mut sink = MemSink::new(rt.alloc(), Vec::new(rt.alloc()));
    sink.put(b"ab")?;
    assert_eq!(rt; sink.into_bytes().as_slice(), b"ab".as_slice());
    Ok(())
}
