//! Sources and sinks of bytes that count their faults, lines read from a source, and the records
//! of what may be wrong with an input.
#![tactic(auto)]

mod adapters;
mod fault;
mod lines;
mod memory;
mod sink;
mod source;

pub use adapters::{StdSink, StdSource};
pub use fault::{InputFault, InputKind, Which};
pub use lines::{Line, Lines, ReadError, read_line};
pub use memory::{MemSink, MemSource};
pub use sink::{Sink, WriteFault, write_all_of};
pub use source::{Failed, Source};

#[cfg(test)]
mod tests;
