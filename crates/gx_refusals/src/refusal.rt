// The text of a refusal.
ghost use Rattle.std.specs.Prelude.{◌≡◌, ◌++◌, OnOk, IfOk, Some, codes};
ghost use Rattle.std.specs.Fmt.{decimal};
ghost use Rattle.gx_refusals.specs.Refused as of;

use gx_ids::{Mem, OutOfMemory};
use gx_sql::{Limit, Refusal};
use gx_text::{push_bytes, push_count};
use std::alloc::Global;

fn push_limit(text: &mut Vec<u8>, limit: Limit) -> Mem<()>
    ensures { OnOk result (text.new.items ≡ text.old.items ++ of.limit_name limit) }
{
    match limit {
        Limit::Segments => push_bytes(text, b"segments"),
        Limit::Sessions => push_bytes(text, b"sessions"),
        Limit::Tables => push_bytes(text, b"tables"),
        Limit::Groups => push_bytes(text, b"groups"),
        Limit::Columns => push_bytes(text, b"columns"),
        Limit::Lines => push_bytes(text, b"lines"),
        Limit::Name => push_bytes(text, b"name"),
        Limit::Text => push_bytes(text, b"text"),
        Limit::Depth => push_bytes(text, b"depth"),
    }
}

fn push_at_line(text: &mut Vec<u8>, number: u32) -> Mem<()>
    ensures { OnOk result (text.new.items ≡ text.old.items ++ of.at_line number) }
{
    push_bytes(text, b" line ")?;
    push_count(text, u128::from(number))?;
    push_bytes(text, b"\n")
}

// What is wrong at a line.
fn at_line(alloc: Global, wrong: &[u8], number: u32) -> Mem<Vec<u8>>
    ensures { IfOk result (λ text. text.items ≡ wrong.now ++ of.at_line number) }
{
    let mut text = Vec::new(alloc);
    push_bytes(&mut text, wrong)?;
    push_at_line(&mut text, number)?;
    Ok(text)
}

fn too_many(alloc: Global, limit: Limit, number: u32) -> Mem<Vec<u8>>
    ensures { IfOk result (λ text. text.items ≡ codes "refused 7 too many " ++ of.limit_name limit ++ of.at_line number) }
{
    let mut text = Vec::new(alloc);
    push_bytes(&mut text, b"refused 7 too many ")?;
    push_limit(&mut text, limit)?;
    push_at_line(&mut text, number)?;
    Ok(text)
}

fn not_utf8(alloc: Global, place: u64) -> Mem<Vec<u8>>
    ensures { IfOk result (λ text. text.items ≡ codes "refused 8 not utf-8 byte " ++ decimal place ++ codes "\n") }
{
    let mut text = Vec::new(alloc);
    push_bytes(&mut text, b"refused 8 not utf-8 byte ")?;
    push_count(&mut text, u128::from(place))?;
    push_bytes(&mut text, b"\n")?;
    Ok(text)
}

/// The line that tells a refusal.
pub fn refusal_text(alloc: Global, refusal: Refusal) -> Mem<Vec<u8>>
    ensures { IfOk result (λ text. of.refusal_text refusal ≡ Some text.items) }
{
    match refusal {
        Refusal::Syntax(number) => at_line(alloc, b"refused 1 syntax", number),
        Refusal::UnknownTable(number) => at_line(alloc, b"refused 2 unknown table", number),
        Refusal::UnknownColumn(number) => at_line(alloc, b"refused 3 unknown column", number),
        Refusal::TableExists(number) => at_line(alloc, b"refused 4 table exists", number),
        Refusal::TypeMismatch(number) => at_line(alloc, b"refused 5 type mismatch", number),
        Refusal::KeyUpdate(number) => at_line(alloc, b"refused 6 key update", number),
        Refusal::TooMany(number, limit) => too_many(alloc, limit, number),
        Refusal::NotUtf8(place) => not_utf8(alloc, place),
        Refusal::OutOfMemory => Err(OutOfMemory),
    }
}
