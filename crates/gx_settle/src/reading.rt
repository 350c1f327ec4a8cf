// The commands of an input.
ghost use Rattle.std.specs.Prelude.{◌≡◌, ◌<◌, ◌≤◌, ◌^◌, [], ◌∷◌, All, IfOk, IfErr, IfSome, MatchOption, length};
ghost use Rattle.std.specs.List.{prefix_len};
ghost use Rattle.gx_settle.specs.Commands as of;
ghost use Rattle.gx_settle.specs.Reading.{IsReadRefused};

use crate::command::{Command, read_command};
use std::alloc::{AllocFailed, Global};

/// Why an input isn't read: its line with this number, counted from 1, is the first that is no command, or memory ran out.
#[derive(Clone, Copy)]
pub enum ReadRefusal {
    Line(u64),
    OutOfMemory,
}

impl<T: Drop> From<AllocFailed<T>> for ReadRefusal {
    ghost use Rattle.gx_settle.specs.declared.reading.ReadRefusal.TheVariants as refusal;

    ghost from_gives = { λ _ e. e ≡ refusal.OutOfMemory };

    fn from(_error: AllocFailed<T>) -> ReadRefusal {
        ReadRefusal::OutOfMemory
    }
}

fn line_len(bytes: &[u8]) -> usize
    ensures value { result ≡ prefix_len of.is_within bytes.now }
    ensures within { result ≤ length bytes.now }
{
    bytes.iter().take_while(|byte| **byte != b'\n').count()
}

// The first line of the bytes, and the bytes behind its line feed.
fn first_line(bytes: &[u8]) -> Option<(&[u8], &[u8])>
    ensures cases { MatchOption result (bytes.now ≡ []) (λ r. of.lines_of bytes.now ≡ r.0.now ∷ of.lines_of r.1.now) }
    ensures shorter { IfSome result (λ r. length r.1.now < length bytes.now) }
{
    if bytes.is_empty() {
        return None;
    }
    let (line, rest) = bytes.split_at(line_len(bytes));
    match rest.split_first() {
        None => Some((line, rest)),
        Some((_feed, rest)) => Some((line, rest)),
    }
}

/// Reads the commands of an input, one a line. The last line may lack its end.
pub fn read_commands(alloc: Global, bytes: &[u8]) -> Result<Vec<Command>, ReadRefusal>
    requires { length bytes.now < 2 ^ 32 }
    ensures read { IfOk result (λ commands. of.AreLinesOf (of.lines_of bytes.now) commands.items) }
    ensures drawn { IfOk result (λ commands. All of.IsDrawn commands.items) }
    ensures refused { IfErr result (λ refusal. IsReadRefused bytes.now refusal) }
{
    let mut commands = Vec::new(alloc);
    let mut rest = bytes;
    while let Some((line, others)) = first_line(rest) {
        let Some(command) = read_command(line) else {
            return Err(ReadRefusal::Line(commands.len() as u64 + 1));
        };
        commands.push(command)?;
        rest = others;
    }
    Ok(commands)
}
