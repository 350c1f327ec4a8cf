// Words, numbers and names with blanks before them.
ghost use Rattle.std.specs.Prelude.{◌≡◌, ◌++◌, OnOk};
ghost use Rattle.std.specs.Fmt.{decimal};
ghost use Rattle.std.specs.List.{flat_map};
ghost use Rattle.gx_ids.specs.Rid.{text_of as rid_text};
ghost use Rattle.gx_report.specs.Words as of;

use gx_ids::{Gxid, Mem, Node, Rid, SessionId, Table};
use gx_script::Script;
use gx_text::{push_bytes, push_count};
use std::alloc::Global;

pub fn push_word(text: &mut Vec<u8>, word: &[u8]) -> Mem<()>
    ensures { OnOk result (text.new.items ≡ text.old.items ++ of.word_text word.now) }
{
    push_bytes(text, b" ")?;
    push_bytes(text, word)
}

pub fn push_number(text: &mut Vec<u8>, number: u64) -> Mem<()>
    ensures { OnOk result (text.new.items ≡ text.old.items ++ of.number_text number) }
{
    push_bytes(text, b" ")?;
    push_count(text, u128::from(number))
}

/// Adds a count behind a text.
pub fn push_count_behind(text: &mut Vec<u8>, before: &[u8], count: u128) -> Mem<()>
    ensures { OnOk result (text.new.items ≡ text.old.items ++ before.now ++ decimal count) }
{
    push_bytes(text, before)?;
    push_count(text, count)
}

/// Adds a word, and numbers behind it.
pub fn push_words(text: &mut Vec<u8>, word: &[u8], numbers: &[u64]) -> Mem<()>
    ensures { OnOk result (text.new.items ≡ text.old.items ++ of.words_text word.now numbers.now) }
{
    push_bytes(text, word)?;
    for number in numbers {
        push_number(text, *number)?;
    }
    Ok(())
}

/// Adds a word, and a node and a transaction behind it.
pub fn push_at_node(text: &mut Vec<u8>, word: &[u8], node: Node, gxid: Gxid) -> Mem<()>
    ensures { OnOk result (text.new.items ≡ text.old.items ++ of.at_node_text word.now node gxid) }
{
    push_words(text, word, &[u64::from(node.0), gxid.0])
}

pub fn push_gxids(text: &mut Vec<u8>, gxids: &[Gxid]) -> Mem<()>
    ensures { OnOk result (text.new.items ≡ text.old.items ++ flat_map of.gxid_text gxids.now) }
{
    for gxid in gxids {
        push_number(text, gxid.0)?;
    }
    Ok(())
}

pub fn push_session(text: &mut Vec<u8>, script: &Script, session: SessionId) -> Mem<()>
    ensures { OnOk result (text.new.items ≡ text.old.items ++ of.word_text (of.session_name script.now session)) }
{
    push_bytes(text, b" ")?;
    match script.sessions.as_slice().get(usize::from(session.0)) {
        Some(name) => push_bytes(text, name.as_slice()),
        None => Ok(()),
    }
}

/// Adds a word, and a session's name behind it.
pub fn push_at_session(
    text: &mut Vec<u8>,
    script: &Script,
    word: &[u8],
    session: SessionId,
) -> Mem<()>
    ensures { OnOk result (text.new.items ≡ text.old.items ++ word.now ++ of.word_text (of.session_name script.now session)) }
{
    push_bytes(text, word)?;
    push_session(text, script, session)
}

pub fn push_table(text: &mut Vec<u8>, script: &Script, table: Table) -> Mem<()>
    ensures { OnOk result (text.new.items ≡ text.old.items ++ of.word_text (of.table_name script.now table)) }
{
    push_bytes(text, b" ")?;
    match script.tables.as_slice().get(usize::from(table.0)) {
        Some(schema) => push_bytes(text, schema.name.as_slice()),
        None => Ok(()),
    }
}

pub fn push_rid(alloc: Global, text: &mut Vec<u8>, rid: Rid) -> Mem<()>
    ensures { OnOk result (text.new.items ≡ text.old.items ++ of.word_text (rid_text rid)) }
{
    let name = rid.text(alloc)?;
    push_word(text, name.as_slice())
}
