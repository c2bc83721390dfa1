//! The processor time of the work alone.
use std::io;
use std::time::{CpuClock, Duration};

/// The processor time that pieces of work took.
#[derive(Clone, Copy, Debug)]
pub struct Spent {
    total: Duration,
    start: Duration,
}

impl Spent {
    /// No time yet.
    pub fn none() -> Spent {
        Spent {
            total: Duration::ZERO,
            start: Duration::ZERO,
        }
    }

    /// A piece of work begins, or the clock can't be read.
    pub fn begin(&mut self, clock: &impl CpuClock) -> io::Result<()> {
        self.start = clock.thread_cpu_time()?;
        Ok(())
    }

    /// The piece of work that began last ends, or the clock can't be read.
    pub fn end(&mut self, clock: &impl CpuClock) -> io::Result<()> {
        let now = clock.thread_cpu_time()?;
        let piece = now.saturating_sub(self.start);
        self.total = self.total.saturating_add(piece);
        Ok(())
    }

    /// The time of all pieces.
    pub fn nanoseconds(&self) -> u128 {
        self.total.as_nanos()
    }
}
