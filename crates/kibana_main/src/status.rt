ghost use Rattle.std.specs.Prelude.{◌≡◌};
ghost use Rattle.kibana_main.specs.Output.{number_of};

use wire_io::{InputKind, Which};

/// How a run ended.
#[derive(Clone, Copy, Debug, PartialEq, Eq)]
pub enum Status {
    /// The input was read to its end and the work is done; the whole output was written.
    Ok,
    /// Memory ran out; a front of the output was written.
    Memory,
    /// The words name no command; a fault line was written.
    Usage,
    /// The line of this number, counted from 1, is the first that is refused; a fault line was
    /// written.
    BadInput { line: u64, kind: InputKind },
    /// The source failed; nothing was written.
    ReadFault,
    /// The sink failed; a front of the output was written.
    WriteFault,
    /// A limit is passed before any line is refused; a fault line was written.
    Limit(Which),
    /// The journal holds as many entries as it may, and a further request came; the output as far as
    /// the run went was written.
    JournalFull,
}

impl Status {
    /// The number with which the program ends, as the variants are listed: 0 to 6, and 8.
    pub fn number(self) -> u8
        ensures { result ≡ number_of self }
    {
        match self {
            Status::Ok => 0,
            Status::Memory => 1,
            Status::Usage => 2,
            Status::BadInput { .. } => 3,
            Status::ReadFault => 4,
            Status::WriteFault => 5,
            Status::Limit(_) => 6,
            Status::JournalFull => 8,
        }
    }
}
