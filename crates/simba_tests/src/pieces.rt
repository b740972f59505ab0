//! A sink that looks at the pieces in which lines come.
ghost use Rattle.std.specs.Prelude.{◌≡◌};

use crate::runs::texts;
use disk_kit::MemDepot;
use simba_top::run_simba;
use stab_io::{Failed, MemSink, MemSource, Sink};
use std::alloc::Global;
use std::test::Fail;

/// A sink, and whether each piece that came was one line with its newline.
#[derive(Drop)]
struct LineSink {
    sink: MemSink,
    pieces: usize,
    are_lines: bool,
}

fn is_line(piece: &[u8]) -> bool {
    match piece.split_last() {
        Some((last, line)) => *last == b'\n' && !line.contains(&b'\n'),
        None => false,
    }
}

impl LineSink {
    fn new(alloc: Global) -> LineSink {
        LineSink {
            sink: MemSink::new(alloc, Vec::new(alloc)),
            pieces: 0,
            are_lines: true,
        }
    }
}

impl Sink for LineSink {
    ghost holds = { λ s. ⟦<MemSink as Sink>⟧.holds s.sink };

    ghost faults = { λ s. ⟦<MemSink as Sink>⟧.faults s.sink };

    fn put(&mut self, bytes: &[u8]) -> Result<(), Failed> {
        self.are_lines &= is_line(bytes);
        self.pieces = self.pieces.saturating_add(1);
        self.sink.put(bytes)
    }
}

// Two answers with the lines that they count, and a stop.
const SCRIPT: &str = "store S1\n\
table T1 notes eventual 64 n:int o:object\n\
client C1 - T1\n\
write C1 T1 00000000-0000-4000-8000-000000000001 5 h:00\n\
sync C1 T1\n\
deliver 0\n\
deliver 1\n\
history T1\n\
frob\n";

const LINES: usize = 12;

#[test]
fn each_line_is_put_at_once(rt: HostRuntime) -> Result<(), Fail> {
    let words = vec![in rt.alloc(); String::from_str(rt.alloc(), "run")?]?;
    let mut source = MemSource::new(texts(rt.alloc(), &[SCRIPT])?, Vec::new(rt.alloc()));
    let mut sink = LineSink::new(rt.alloc());
    let mut depot = MemDepot::new(rt.alloc(), Vec::new(rt.alloc()));
    let status = run_simba(rt.alloc(), &words, &mut source, &mut sink, &mut depot);
    assert_eq!(rt; status, 3);
    assert!(rt; sink.are_lines);
    assert_eq!(rt; sink.pieces, LINES);
    Ok(())
}
