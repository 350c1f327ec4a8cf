// From the words to the script that they ask for.
ghost use Rattle.std.specs.Prelude.{◌≡◌, ◌≤◌, IfErr, IfOk, Ok, length};
ghost use Rattle.gx.specs.Top.{IsAttempt, IsGiven, IsNoScript, IsRefusedFor};
ghost use Rattle.gx_sql.specs.Script.{Reads};
ghost use Rattle.gx_words.specs.Asked.{IsForSource, limit};
ghost use Rattle.gx_store.specs.Told.{no_run, run_in};

use gx_outside::Source;
use gx_refusals::refusal_text;
use gx_script::Script;
use gx_sql::{Refusal, parse_script};
use gx_store::{Attempt, Run};
use gx_words::{NoBytes, Options, WordsFault, read_words, script_bytes};
use std::alloc::Global;

/// Reads or generates the script that the words ask for; where there is none, what the work came to. Nothing is read unless the words ask
/// for a script that is read.
pub fn read_script<S: Source>(
    alloc: Global,
    words: &[String],
    source: &mut S,
) -> Result<(Options, Script), Attempt>
    ensures given { IfOk result (λ r. IsGiven words.now (S.left source.old) (S.left source.new) (S.fault_count source.old) (S.fault_count source.new) r.0 r.1) }
    ensures is { IfErr result (IsAttempt words.now (S.left source.old) (S.left source.new) (S.fault_count source.old) (S.fault_count source.new)) }
    ensures none { IfErr result (λ a. run_in a ≡ no_run) }
    ensures unread { (IsForSource words.now → ⊥) → source.new ≡ source.old }
{
    let options = match read_words(alloc, words) {
        Ok(options) => options,
        Err(WordsFault::Usage) => return Err(Attempt::Usage),
        Err(WordsFault::OutOfMemory) => return Err(Attempt::OutOfMemory(Run::new(alloc))),
    };
    match script_bytes(alloc, options, source) {
        Ok(bytes) => script_of(alloc, options, bytes.as_slice()),
        Err(NoBytes::ReadFault) => Err(Attempt::ReadFault),
        Err(NoBytes::TooLarge) => Err(Attempt::TooLarge),
        Err(NoBytes::OutOfMemory) => Err(Attempt::OutOfMemory(Run::new(alloc))),
    }
}

// The script that these bytes are.
fn script_of(alloc: Global, options: Options, bytes: &[u8]) -> Result<(Options, Script), Attempt>
    requires { length bytes.now ≤ limit }
    ensures ok { IfOk result (λ r. (r.0 ≡ options) × Reads bytes.now (Ok r.1)) }
    ensures err { IfErr result (IsNoScript bytes.now) }
{
    match parse_script(alloc, bytes) {
        Ok(script) => Ok((options, script)),
        Err(refusal) => Err(refused(alloc, refusal)),
    }
}

// What bytes come to that are no script.
fn refused(alloc: Global, refusal: Refusal) -> Attempt
    ensures { IsRefusedFor refusal result }
{
    match refusal_text(alloc, refusal) {
        Ok(text) => Attempt::Refused(text),
        Err(_) => Attempt::OutOfMemory(Run::new(alloc)),
    }
}
