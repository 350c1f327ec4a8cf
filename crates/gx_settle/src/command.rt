// The lines of the input.
ghost use Rattle.std.specs.Prelude.{◌≡◌, Some, IfSome};
ghost use Rattle.gx_settle.specs.Commands as of;

use gx_decide::Decision;
use gx_ids::Gxid;

/// What a line asks for. To ask for a transaction's verdict is to settle it with the wish to abort.
#[derive(Clone, Copy)]
pub enum Command {
    Settle(Gxid, Decision),
    Reopen,
}

/// Reads a line, without its end: `settle G commit`, `settle G abort`, `ask G` or `reopen`, G from 1.
pub fn read_command(line: &[u8]) -> Option<Command>
    ensures read { result ≡ of.command_of line.now }
    ensures drawn { IfSome result of.IsDrawn }
{
    if line == b"reopen".as_slice() {
        return Some(Command::Reopen);
    }
    if let Some(digits) = line.strip_prefix(b"ask ") {
        return settle(digits, Decision::Abort);
    }
    settle_with_wish(line.strip_prefix(b"settle ")?)
}

// A transaction, and what is wished for it.
fn settle_with_wish(rest: &[u8]) -> Option<Command>
    ensures read { result ≡ of.settles (Some rest.now) }
    ensures drawn { IfSome result of.IsDrawn }
{
    if let Some(digits) = rest.strip_suffix(b" commit") {
        return settle(digits, Decision::Commit);
    }
    settle(rest.strip_suffix(b" abort")?, Decision::Abort)
}

fn settle(digits: &[u8], wish: Decision) -> Option<Command>
    ensures read { result ≡ of.settle_of wish digits.now }
    ensures drawn { IfSome result of.IsDrawn }
{
    match number(digits)? {
        0 => None,
        number => Some(Command::Settle(Gxid(number), wish)),
    }
}

// The number that digits write, where there is one of 64 bits.
fn number(digits: &[u8]) -> Option<u64>
    ensures { of.drawn result ≡ of.drawn (of.number_behind 0 digits.now) }
{
    let mut number = 0;
    for digit in digits {
        number = grown(number, *digit)?;
    }
    Some(number)
}

// The number with a further digit.
fn grown(number: u64, digit: u8) -> Option<u64>
    ensures { result ≡ of.grown number digit }
{
    if digit < b'0' || digit > b'9' {
        return None;
    }
    number.checked_mul(10)?.checked_add((digit - b'0') as u64)
}
