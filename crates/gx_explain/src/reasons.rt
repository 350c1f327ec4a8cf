// The line that tells why bytes are no script.
ghost use Rattle.std.specs.Prelude.{◌≡◌, ◌++◌, OnOk};
ghost use Rattle.gx_explain.specs.Reasons as of;

use gx_ids::Mem;
use gx_sql::Limit;
use gx_sql::refusal::LineFault;
use gx_text::{push_bytes, push_count};

fn fault_name(fault: LineFault) -> &'static [u8]
    ensures { result.now ≡ of.fault_name fault }
{
    match fault {
        LineFault::Syntax => b"1 syntax",
        LineFault::UnknownTable => b"2 unknown table",
        LineFault::UnknownColumn => b"3 unknown column",
        LineFault::TableExists => b"4 table exists",
        LineFault::TypeMismatch => b"5 type mismatch",
        LineFault::KeyUpdate => b"6 key update",
        LineFault::TooMany(Limit::Segments) => b"7 too many segments",
        LineFault::TooMany(Limit::Sessions) => b"7 too many sessions",
        LineFault::TooMany(Limit::Tables) => b"7 too many tables",
        LineFault::TooMany(Limit::Groups) => b"7 too many groups",
        LineFault::TooMany(Limit::Columns) => b"7 too many columns",
        LineFault::TooMany(Limit::Lines) => b"7 too many lines",
        LineFault::TooMany(Limit::Name) => b"7 too many name",
        LineFault::TooMany(Limit::Text) => b"7 too many text",
        LineFault::TooMany(Limit::Depth) => b"7 too many depth",
    }
}

/// Adds the line on the fault of the line of this number.
pub fn push_reason(text: &mut Vec<u8>, number: u32, fault: LineFault) -> Mem<()>
    ensures { OnOk result (text.new.items ≡ text.old.items ++ of.reason_at number fault) }
{
    push_bytes(text, b"refused ")?;
    push_bytes(text, fault_name(fault))?;
    push_bytes(text, b" line ")?;
    push_count(text, u128::from(number))?;
    push_bytes(text, b"\n")
}
