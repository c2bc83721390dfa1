ghost use Rattle.std.specs.Prelude.{◌≡◌, ◌≤◌, [], false, true, Err, is_err, ◌+◌, ◌<◌, IfErr, OnOk, OnErr};
ghost use Rattle.std.specs.Io.KnownBytes.{prepend_known};
ghost use Rattle.wire_io.specs.Causes.{Rose};
ghost use Rattle.std.specs.Str.Lines.{strip_carriage_return};
ghost use Rattle.wire_io.specs.Answers.{TakesByte, AnswersNext, TakesBytes, CountsLine};

use crate::source::Source;
use plain_data::List;
use std::alloc::{AllocError, Global};
use std::marker::Model;

// The bytes of one line, without its newline.
const MAX_LINE: usize = 4_194_304;

// The bytes of the whole input.
const MAX_INPUT: u64 = 26_214_400;

// How many bytes are asked of the source at a time.
const PIECE: usize = 4096;

/// A line, or the end of the input.
#[derive(Debug, Drop)]
pub enum Line {
    /// The bytes of a line without its newline, and without one carriage return before that.
    Text(List<u8>),
    /// No line is left.
    End,
}

/// Why no line was read.
#[derive(Clone, Copy, Debug, PartialEq, Eq)]
pub enum ReadError {
    /// Memory ran out.
    Memory,
    /// The source failed.
    ReadFault,
    /// 4,194,305 bytes of one line were read, a carriage return before its newline counted.
    LineTooLong,
    /// 26,214,401 bytes of the input were read. Where one byte passes both limits, the line's
    /// comes.
    InputTooLong,
}

impl From<AllocError> for ReadError {
    ghost use Rattle.std.specs.Prelude.{◌≡◌};
    ghost use Rattle.wire_io.specs.declared.lines.ReadError.TheVariants.{Memory};

    ghost from_gives = { λ _ e. e ≡ Memory };

    fn from(_refused: AllocError) -> ReadError {
        ReadError::Memory
    }
}

/// A reader of lines: what was read ahead of them, how many bytes have come to them, and whether
/// a line was refused.
#[derive(Drop)]
pub struct Lines {
    alloc: Global,
    piece: [u8; PIECE],
    at: usize,
    end: usize,
    taken: u64,
    failed: bool,
}

impl Model for Lines {
    ghost use Rattle.std.specs.Prelude.{◌≤◌, take, drop};
    ghost use Rattle.wire_io.specs.Lines.{Reader, max_input};

    ghost Value = { Reader };

    ghost view = { λ l. record { ahead = drop l.at (take l.end l.piece); taken = l.taken; failed = l.failed } };

    ghost invariant = { λ l. (l.at ≤ l.end) × (l.end ≤ 4096) × (l.taken ≤ max_input) };
}

impl Lines {
    /// A reader that has read nothing.
    pub fn new(alloc: Global) -> Lines
        ensures { result ≡ record { ahead = []; taken = 0; failed = false } }
    {
        Lines {
            alloc,
            piece: [0; PIECE],
            at: 0,
            end: 0,
            taken: 0,
            failed: false,
        }
    }

    /// Whether a line was refused, so that no further one may be asked for.
    pub fn has_failed(&self) -> bool
        ensures { result ≡ self.now.failed }
    {
        self.failed
    }

    fn alloc(&self) -> Global
        ensures { self.now.taken ≤ 26214400 }
    {
        self.alloc
    }

    /// The next byte, or `None` at the end of the input.
    fn next_byte<S: Source>(&mut self, source: &mut S) -> Result<Option<u8>, ReadError>
        ensures bytes { TakesByte (prepend_known self.old.ahead (S.left source.old))
            (prepend_known self.new.ahead (S.left source.new)) result }
        ensures counts { (self.new.taken ≡ self.old.taken) × (self.new.failed ≡ self.old.failed) }
        ensures ahead { OnErr result (self.new.ahead ≡ []) }
        ensures later { S.faults source.old ≤ S.faults source.new }
        ensures fault { IfErr result (λ e. (e ≡ ReadError.ReadFault) × Rose (S.faults source.old) (S.faults source.new)) }
    {
        if self.at == self.end {
            self.at = 0;
            self.end = 0;
            match source.read(&mut self.piece) {
                Ok(0) => return Ok(None),
                Ok(count) => self.end = count,
                Err(_) => return Err(ReadError::ReadFault),
            }
        }
        let byte = self.piece[self.at];
        self.at += 1;
        Ok(Some(byte))
    }

    /// Counts a byte of the input.
    fn count(&mut self) -> Result<(), ReadError>
        ensures ok { OnOk result ((self.old.taken < 26214400) × (self.new ≡ record self.old { taken = self.old.taken + 1 })) }
        ensures err { IfErr result (λ e. (e ≡ ReadError.InputTooLong) × (26214400 ≤ self.old.taken) × (self.new ≡ self.old)) }
    {
        if self.taken >= MAX_INPUT {
            return Err(ReadError::InputTooLong);
        }
        self.taken += 1;
        Ok(())
    }
}

/// The next line, or the end of the input. A line ends at a newline, and the last one needs none.
/// After a refusal `lines` has failed.
///
/// `Memory` where memory ran out; `ReadFault` where the source failed; `LineTooLong` and
/// `InputTooLong` at the first byte past a limit. Bytes that were read ahead count when a line
/// comes to them. The source is read only where none are left ahead, so no line and no limit
/// stands before a failed read.
pub fn read_line<S: Source>(lines: &mut Lines, source: &mut S) -> Result<Line, ReadError>
    requires { lines.old.failed ≡ false }
    ensures next { AnswersNext lines.old.taken (prepend_known lines.old.ahead (S.left source.old))
        lines.new.taken (prepend_known lines.new.ahead (S.left source.new)) result }

    // A line takes its bytes. What came before a failed read is a part of a line at most.
    ensures bytes { TakesBytes lines.old.taken lines.new.taken (prepend_known lines.old.ahead (S.left source.old))
        (prepend_known lines.new.ahead (S.left source.new)) result }

    // Each line takes a byte at least, and a limit is passed only by as many bytes.
    ensures counted { CountsLine lines.old.taken lines.new.taken result }
    ensures failed { lines.new.failed ≡ is_err result }
    ensures later { S.faults source.old ≤ S.faults source.new }
    ensures fault { result ≡ Err ReadError.ReadFault → Rose (S.faults source.old) (S.faults source.new) }
    ensures ahead { result ≡ Err ReadError.ReadFault → lines.new.ahead ≡ [] }
{
    let next = next_line(lines, source);
    lines.failed = next.is_err();
    next
}

fn next_line<S: Source>(lines: &mut Lines, source: &mut S) -> Result<Line, ReadError>
    ensures next { AnswersNext lines.old.taken (prepend_known lines.old.ahead (S.left source.old))
        lines.new.taken (prepend_known lines.new.ahead (S.left source.new)) result }

    // A line takes its bytes. What came before a failed read is a part of a line at most.
    ensures bytes { TakesBytes lines.old.taken lines.new.taken (prepend_known lines.old.ahead (S.left source.old))
        (prepend_known lines.new.ahead (S.left source.new)) result }

    // Each line takes a byte at least, and a limit is passed only by as many bytes.
    ensures counted { CountsLine lines.old.taken lines.new.taken result }
    ensures later { S.faults source.old ≤ S.faults source.new }
    ensures fault { result ≡ Err ReadError.ReadFault → Rose (S.faults source.old) (S.faults source.new) }
    ensures ahead { result ≡ Err ReadError.ReadFault → lines.new.ahead ≡ [] }
{
    let mut line = List::new(lines.alloc());
    while let Some(byte) = lines.next_byte(source)? {
        if byte == b'\n' {
            lines.count()?;
            return Ok(Line::Text(without_return(line)));
        }
        if line.len() >= MAX_LINE {
            return Err(ReadError::LineTooLong);
        }
        lines.count()?;
        line.push(byte)?;
    }
    if line.is_empty() {
        Ok(Line::End)
    } else {
        Ok(Line::Text(line))
    }
}

/// The line without the one carriage return at its end.
fn without_return(mut line: List<u8>) -> List<u8>
    ensures { result ≡ strip_carriage_return line }
{
    if line.as_slice().last() == Some(&b'\r') {
        let _ = line.pop();
    }
    line
}
