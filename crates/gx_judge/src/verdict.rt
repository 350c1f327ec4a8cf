// What is said of a script.
ghost use Rattle.std.specs.Prelude.{◌≡◌, ◌++◌, OnOk};
ghost use Rattle.std.specs.Io.KnownBytes.{Appends};
ghost use Rattle.gx_judge.specs.Judged as of;

use gx_outside::{Failed, Sink, write_whole};

/// What becomes of a script: its run is a legal history or isn't one, and this is told of it before; or there is no run, since words, bytes or
/// the script are refused.
#[derive(Drop)]
pub enum Verdict {
    Legal(Vec<u8>),
    NotLegal(Vec<u8>),
    NoRun,
    OutOfMemory,
}

// What is told of the run.
fn text_in(verdict: &Verdict) -> &[u8]
    ensures { result.now ≡ of.text_in verdict.now }
{
    match verdict {
        Verdict::Legal(text) => text.as_slice(),
        Verdict::NotLegal(text) => text.as_slice(),
        Verdict::NoRun => b"",
        Verdict::OutOfMemory => b"",
    }
}

// The verdict as it is printed.
fn line_of(verdict: &Verdict) -> &'static [u8]
    ensures { result.now ≡ of.line_of verdict.now }
{
    match verdict {
        Verdict::Legal(_) => b"legal\n",
        Verdict::NotLegal(_) => b"not legal\n",
        Verdict::NoRun => b"no run\n",
        Verdict::OutOfMemory => b"out of memory\n",
    }
}

/// Writes what is told of the run, and behind it the verdict.
pub fn write_verdict<K: Sink>(sink: &mut K, verdict: &Verdict) -> Result<(), Failed>
    ensures { OnOk result (Appends (K.written sink.old) (K.written sink.new) (of.text_in verdict.now ++ of.line_of verdict.now)) }
{
    write_whole(sink, text_in(verdict))?;
    write_whole(sink, line_of(verdict))
}

/// The verdict as a status: 0 where the run is a legal history, and 1 where it isn't.
pub fn status_of(verdict: &Verdict) -> u8
    ensures { result ≡ of.status_of verdict.now }
{
    match verdict {
        Verdict::Legal(_) => 0,
        Verdict::NotLegal(_) => 1,
        Verdict::NoRun => 3,
        Verdict::OutOfMemory => 6,
    }
}
