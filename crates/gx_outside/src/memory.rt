// The outside kept in memory, with faults at calls whose numbers are given.
ghost use Rattle.std.specs.Prelude.{◌≡◌, ◌↔◌, IsTrue};
ghost use Rattle.gx_outside.specs.Memory.{IsFailingNext};

pub mod journal_mem;
pub mod sink_mem;
pub mod source_mem;

pub use journal_mem::JournalMem;
pub use sink_mem::SinkMem;
pub use source_mem::SourceMem;

// Whether a call after `calls` others fails.
pub(crate) fn is_failing_next(calls: u64, fail: &[u64]) -> bool
    ensures { IsTrue result ↔ IsFailingNext calls fail.now }
{
    calls < u64::MAX && fail.contains(&(calls + 1))
}
