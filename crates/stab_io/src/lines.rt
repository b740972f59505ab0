ghost use Rattle.std.specs.Prelude.{◌≡◌, ◌≢◌, ◌≤◌, ◌<◌, ◌+◌, ◌++◌, ◌==◌, ◌⊎◌, ◌^◌, [], ◌∷◌, ℕ, Option, List, Some};
ghost use Rattle.std.specs.Prelude.{None, Ok, length, vec_len, take, drop, IfOk, IfSome, IfNone, IfErr, MatchResult};
ghost use Rattle.std.specs.Prelude.{OnOk, OnErr, OnSome, MatchOption, MatchBool};
ghost use Rattle.std.specs.List.{position};
ghost use Rattle.std.specs.Io.KnownBytes.{Keeps, Consumes, IsAtEnd};
ghost use Rattle.stab_io.specs.declared.line_fault.LineFault.TheVariants as faults;
ghost use Rattle.stab_io.specs.Faults.{Rose};
ghost use Rattle.stab_io.specs.Lines.{HasNoNewline, Line, End, LineTooLong, InputTooLong, next_of};
ghost use Rattle.stab_io.specs.Reading.{ahead, IsNextLine, ComesNext, CountsAll, IsUnfinished, stop_of, stop_after};
ghost use Rattle.stab_io.specs.Reading.{CutsLine, Refuses, IsDue, HasMore, IsFirstPast, IsMoreDue};

use crate::limits::{INPUT_LIMIT, LINE_LIMIT, Limits};
use crate::line_fault::LineFault;
use crate::piece::Piece;
use crate::source::{Failed, Source};
use std::alloc::Global;
use std::marker::Model;
use std::mem;

/// Reads the lines of a source. It keeps what it took of the source and hasn't answered yet, so all calls should be
/// given the same source.
#[derive(Drop)]
pub struct LineReader {
    // the front of the next line, without a newline
    line: Vec<u8>,
    piece: Piece,
    used: u64,
    stopped: Option<LineFault>,
    limits: Limits,
    alloc: Global,
}

impl Model for LineReader {
    ghost use Rattle.std.specs.Prelude.{◌≤◌, ◌<◌, ◌^◌, ◌++◌, length};
    ghost use Rattle.stab_io.specs.Lines.{HasNoNewline};
    ghost use Rattle.stab_io.specs.Reading.{Reading};

    ghost Value = { Reading };

    ghost view = { λ r. record {
      used = r.used;
      held = r.line.items ++ r.piece;
      stopped = r.stopped;
      limits = r.limits;
    } };

    ghost invariant = { λ r. HasNoNewline r.line.items × (length r.line.items ≤ r.limits.line)
        × (r.used ≤ r.limits.input)
        × (r.limits.line < 2 ^ 62) × (r.limits.input < 2 ^ 62) };
}

impl LineReader {
    pub fn new(alloc: Global) -> LineReader
        ensures { result ≡ record {
          used = 0;
          held = [];
          stopped = None;
          limits = record { line = LINE_LIMIT; input = INPUT_LIMIT };
        } }
    {
        LineReader::with_limits(
            alloc,
            Limits {
                line: LINE_LIMIT,
                input: INPUT_LIMIT,
            },
        )
    }

    /// The next line without its newline, or None at the end. A last line without a newline is a line. After a refusal
    /// other than `Memory` every call answers it again; after `Memory` no byte is lost, and a call goes on.
    pub fn next_line<S: Source>(&mut self, source: &mut S) -> Result<Option<Vec<u8>>, LineFault>
        // A line, and the end.
        ensures line { IfOk result (λ found. IfSome found (λ line.
            IsNextLine self.old (S.left source.old) line.items self.new (S.left source.new))) }
        ensures end { IfOk result (λ found. IfNone found (ComesNext self.old (S.left source.old) End)) }
        ensures end_left { IfOk result (λ found. IfNone found ((self.new.held ≡ []) × IsAtEnd (S.left source.new))) }

        // The limits: the next line, or the input, has more bytes than it may have.
        ensures line_limit { (len : ℕ) → self.old.stopped ≡ None → result ≡ Err (LineFault.LineLimit len)
            → (len ≡ self.old.limits.line + 1) × ComesNext self.old (S.left source.old) LineTooLong }
        ensures input_limit { (len : ℕ) → self.old.stopped ≡ None → result ≡ Err (LineFault.InputLimit len)
            → (len ≡ self.old.limits.input + 1) × ComesNext self.old (S.left source.old) InputTooLong }

        // Where the source doesn't fail and memory isn't refused, the answer is the one that is due.
        ensures due { self.old.stopped ≡ None → result ≢ Err LineFault.Read → result ≢ Err LineFault.Memory
            → IfSome (ahead self.old (S.left source.old)) (λ bytes.
            IsDue self.old.limits (next_of self.old.limits self.old.used bytes) result) }

        // The source failed, and every line that it gave whole has been answered.
        ensures read { self.old.stopped ≡ None → result ≡ Err LineFault.Read
            → Rose (S.faults source.old) (S.faults source.new) × IsUnfinished self.new }
        ensures unfailed { result ≢ Err LineFault.Read → S.faults source.new ≡ S.faults source.old }

        // What stays.
        ensures again { IfSome self.old.stopped (λ fault.
            (result ≡ Err fault) × (self.new ≡ self.old) × (source.new ≡ source.old)) }
        ensures stopped { self.old.stopped ≡ None → self.new.stopped ≡ stop_after result }
        ensures err { OnErr result (Keeps (ahead self.old (S.left source.old)) (ahead self.new (S.left source.new))) }
        ensures err_used { OnErr result (self.new.used ≡ self.old.used) }
        ensures limits { self.new.limits ≡ self.old.limits }

        // Where the source tells nothing too.
        ensures short { IfOk result (λ found. IfSome found (λ line. length line.items ≤ self.old.limits.line)) }
        ensures used { IfOk result (λ found. MatchOption found (self.new.used ≡ self.old.used) (λ line.
            (self.new.used ≡ self.old.used + length line.items + 1)
            ⊎ ((self.new.used ≡ self.old.used + length line.items) × (self.new.held ≡ [])
            × IsAtEnd (S.left source.new)))) }
        ensures counted { CountsAll self.old (S.left source.old) self.new (S.left source.new) }
        ensures within { self.new.used ≤ self.new.limits.input }
    {
        if let Some(fault) = self.stopped() {
            return Err(fault);
        }
        'pieces: loop {
            if let Some(line) = self.whole_line()? {
                return Ok(Some(line));
            }
            if !self.fill(source)? {
                return Ok(self.last_line()?);
            }
        }
    }

    /// Whether another byte comes; no byte is lost, and none is answered. `InputLimit` where that byte is the first
    /// past the input's limit. It takes no memory. After a refusal every call answers it again, and so does
    /// `next_line`.
    pub fn goes_on<S: Source>(&mut self, source: &mut S) -> Result<bool, LineFault>
        // Another byte, and the end.
        ensures more { IfOk result (λ more. IfSome (ahead self.old (S.left source.old))
            (λ bytes. HasMore self.old bytes more)) }
        ensures more_left { IfOk result (λ more. MatchBool more (0 < length self.new.held)
            ((self.new.held ≡ []) × IsAtEnd (S.left source.new))) }

        // The limit: the input has more bytes than it may have.
        ensures input_limit { (len : ℕ) → self.old.stopped ≡ None → result ≡ Err (LineFault.InputLimit len)
            → (len ≡ self.old.limits.input + 1) × (self.old.used ≡ self.old.limits.input)
            × IfSome (ahead self.old (S.left source.old)) (λ bytes. IsFirstPast self.old bytes) }

        // Where the source doesn't fail, the answer is the one that is due.
        ensures due { self.old.stopped ≡ None → result ≢ Err LineFault.Read
            → IfSome (ahead self.old (S.left source.old)) (λ bytes. IsMoreDue self.old bytes result) }

        // The source failed, and nothing is held. There is no other refusal.
        ensures read { self.old.stopped ≡ None → result ≡ Err LineFault.Read
            → Rose (S.faults source.old) (S.faults source.new) × (self.new.held ≡ []) }
        ensures unfailed { result ≢ Err LineFault.Read → S.faults source.new ≡ S.faults source.old }
        ensures refusals { self.old.stopped ≡ None → IfErr result (λ fault.
            (fault ≡ LineFault.Read) ⊎ (fault ≡ LineFault.InputLimit (self.old.limits.input + 1))) }

        // What stays.
        ensures again { IfSome self.old.stopped (λ fault.
            (result ≡ Err fault) × (self.new ≡ self.old) × (source.new ≡ source.old)) }
        ensures stopped { self.old.stopped ≡ None → self.new.stopped ≡ stop_after result }
        ensures keeps { Keeps (ahead self.old (S.left source.old)) (ahead self.new (S.left source.new)) }
        ensures same { (self.new.used ≡ self.old.used) × (self.new.limits ≡ self.old.limits) }
        ensures within { self.new.used ≤ self.new.limits.input }
    {
        if let Some(stopped) = self.stopped() {
            return Err(stopped);
        }
        if !self.holds_some() && !self.start(source)? {
            return Ok(false);
        }
        self.check_room()?;
        Ok(true)
    }

    pub(crate) fn with_limits(alloc: Global, limits: Limits) -> LineReader
        requires line { limits.line < 2 ^ 62 }
        requires input { limits.input < 2 ^ 62 }
        ensures { result ≡ record { used = 0; held = []; stopped = None; limits = limits } }
    {
        LineReader {
            line: Vec::new(alloc),
            piece: Piece::new(),
            used: 0,
            stopped: None,
            limits,
            alloc,
        }
    }

    fn stopped(&self) -> Option<LineFault>
        ensures stopped { result ≡ self.now.stopped }
        ensures within { self.now.used ≤ self.now.limits.input }
    {
        self.stopped
    }

    fn holds_some(&self) -> bool
        ensures { MatchBool result (0 < length self.now.held) (self.now.held ≡ []) }
    {
        !self.line.is_empty() || !self.piece.as_slice().is_empty()
    }

    // Takes the next piece of the source where nothing is held. False at the end.
    fn start<S: Source>(&mut self, source: &mut S) -> Result<bool, LineFault>
        requires { self.old.held ≡ [] }
        ensures keeps { Keeps (ahead self.old (S.left source.old)) (ahead self.new (S.left source.new)) }
        ensures more { IfOk result (λ more. MatchBool more (0 < length self.new.held)
            ((self.new.held ≡ []) × IsAtEnd (S.left source.new))) }
        ensures ok { OnOk result (self.new ≡ record self.old { held = self.new.held }) }
        ensures err { IfErr result (λ fault. (fault ≡ LineFault.Read)
            × (self.new ≡ record self.old { stopped = Some LineFault.Read })) }
        ensures cause { MatchResult result (λ _. S.faults source.new ≡ S.faults source.old)
            (λ _. Rose (S.faults source.old) (S.faults source.new)) }
    {
        take_piece(&mut self.piece, &mut self.stopped, source)
    }

    // Refuses a byte more where the input has no room for it.
    fn check_room(&mut self) -> Result<(), LineFault>
        ensures ok { OnOk result ((self.old.used < self.old.limits.input) × (self.new ≡ self.old)) }
        ensures err { IfErr result (λ fault. (fault ≡ LineFault.InputLimit (self.old.limits.input + 1))
            × (self.old.used ≡ self.old.limits.input)
            × (self.new ≡ record self.old { stopped = Some fault })) }
    {
        if self.used < self.limits.input {
            return Ok(());
        }
        let fault = LineFault::InputLimit {
            len: self.limits.input + 1,
        };
        self.stopped = Some(fault);
        Err(fault)
    }

    // The next line, where its newline is held. None where no newline is held and no limit is passed.
    fn whole_line(&mut self) -> Result<Option<Vec<u8>>, LineFault>
        requires { self.old.stopped ≡ None }
        ensures line { IfOk result (λ found. MatchOption found
            (IsUnfinished self.old × (self.new ≡ self.old))
            (λ line. CutsLine self.old line.items self.new)) }
        ensures refused { IfErr result (λ fault. Refuses self.old fault) }
        ensures err { IfErr result (λ fault. self.new ≡ record self.old { stopped = stop_of fault }) }
        ensures within { self.new.used ≤ self.new.limits.input }
    {
        let piece = self.piece.as_slice();
        let Some(at) = newline_at(piece) else {
            let text = (self.line.len() + piece.len()) as u64;
            if let Some(fault) = limit_passed(self.limits, self.used, text, text) {
                self.stopped = Some(fault);
                return Err(fault);
            }
            return Ok(None);
        };
        let text = (self.line.len() + at) as u64;
        if let Some(fault) = limit_passed(self.limits, self.used, text, text + 1) {
            self.stopped = Some(fault);
            return Err(fault);
        }
        self.line.extend_from_slice(&piece[..at])?;
        self.piece.skip(at + 1);
        self.used += text + 1;
        Ok(Some(mem::replace(&mut self.line, Vec::new(self.alloc))))
    }

    // Takes the next piece of the source. False at the end.
    fn fill<S: Source>(&mut self, source: &mut S) -> Result<bool, LineFault>
        requires unfinished { IsUnfinished self.old }
        requires stopped { self.old.stopped ≡ None }
        ensures keeps { Keeps (ahead self.old (S.left source.old)) (ahead self.new (S.left source.new)) }
        ensures more { IfOk result (λ more. MatchBool more (length self.old.held < length self.new.held)
            ((self.new.held ≡ self.old.held) × IsAtEnd (S.left source.new))) }
        ensures ok { OnOk result ((self.new.used ≡ self.old.used) × (self.new.limits ≡ self.old.limits)
            × (self.new.stopped ≡ None)) }
        ensures err { IfErr result (λ fault. self.new ≡ record self.old { stopped = stop_of fault }) }
        ensures cause { MatchResult result (λ _. S.faults source.new ≡ S.faults source.old)
            (λ fault. ((fault ≡ LineFault.Memory) × (S.faults source.new ≡ S.faults source.old))
            ⊎ ((fault ≡ LineFault.Read) × Rose (S.faults source.old) (S.faults source.new))) }
    {
        let piece = self.piece.as_slice();
        self.line.extend_from_slice(piece)?;
        take_piece(&mut self.piece, &mut self.stopped, source)
    }

    // What is held as the last line. None where nothing is held.
    fn last_line(&mut self) -> Result<Option<Vec<u8>>, LineFault>
        requires { IsUnfinished self.old }
        ensures line { IfOk result (λ found. MatchOption found
            ((self.old.held ≡ []) × (self.new ≡ self.old))
            (λ line. (line.items ≡ self.old.held) × (0 < length self.old.held)
            × (self.new ≡ record self.old { used = self.old.used + length self.old.held; held = [] }))) }
        ensures err { IfErr result (λ fault. (fault ≡ LineFault.Memory) × (self.new ≡ self.old)) }
    {
        self.line.extend_from_slice(self.piece.as_slice())?;
        self.piece.clear();
        if self.line.is_empty() {
            return Ok(None);
        }
        self.used += self.line.len() as u64;
        Ok(Some(mem::replace(&mut self.line, Vec::new(self.alloc))))
    }
}

// Takes the next piece of a source. False at the end. A failure is the refusal to answer from here on.
fn take_piece<S: Source>(
    piece: &mut Piece,
    stopped: &mut Option<LineFault>,
    source: &mut S,
) -> Result<bool, LineFault>
    ensures taken { IfOk result (λ more. Consumes (S.left source.old) (S.left source.new) piece.new
        × MatchBool more (0 < length piece.new) ((piece.new ≡ []) × IsAtEnd (S.left source.new))
        × (stopped.new ≡ stopped.old)) }
    ensures err { IfErr result (λ fault. Keeps (S.left source.old) (S.left source.new) × (piece.new ≡ [])
        × (fault ≡ LineFault.Read) × (stopped.new ≡ Some LineFault.Read)) }
    ensures counted { MatchResult result (λ _. S.faults source.new ≡ S.faults source.old)
        (λ _. Rose (S.faults source.old) (S.faults source.new)) }
{
    match piece.take_from(source) {
        Ok(n) => Ok(n > 0),
        Err(Failed) => {
            *stopped = Some(LineFault::Read);
            Err(LineFault::Read)
        }
    }
}

// The place of the first newline.
fn newline_at(bytes: &[u8]) -> Option<usize>
    ensures { result ≡ position (λ b. b == 10) bytes.now }
{
    bytes.iter().position(|b| *b == b'\n')
}

// The limit that is passed where the next line has that many bytes so far, and with its newline takes so many.
fn limit_passed(limits: Limits, used: u64, text: u64, taken: u64) -> Option<LineFault>
    requires used { used ≤ limits.input }
    requires taken { text ≤ taken }
    requires limits { (limits.line < 2 ^ 62) × (limits.input < 2 ^ 62) }
    ensures passed { MatchOption result
        ((text ≤ limits.line) × (used + taken ≤ limits.input))
        (λ fault. ((fault ≡ LineFault.LineLimit (limits.line + 1)) × (limits.line < text)
        × (used + limits.line ≤ limits.input))
        ⊎ ((fault ≡ LineFault.InputLimit (limits.input + 1)) × (limits.input < used + taken)
        × (limits.line < text → limits.input < used + limits.line))) }
{
    let room = limits.input - used;
    if text > limits.line && limits.line <= room {
        return Some(LineFault::LineLimit {
            len: limits.line + 1,
        });
    }
    if taken > room {
        return Some(LineFault::InputLimit {
            len: limits.input + 1,
        });
    }
    None
}
