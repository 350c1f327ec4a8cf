// Names of sessions and tables, each behind a blank.
ghost use Rattle.std.specs.Prelude.{◌≡◌, ◌≤◌, length};
ghost use Rattle.std.specs.List.{prefix_len};
ghost use Rattle.gx_report.specs.Words.{session_name, table_name, word_text};
ghost use Rattle.gx_store.specs.Limits as limits;
ghost use Rattle.gx_trace.specs.Lawful.{IsSession, IsTable, names_of};
ghost use Rattle.gx_trace.specs.Names as of;
ghost use Rattle.gx_trace.specs.Readers.{EndsName, IsRead, IsReaderOf};
ghost use Rattle.gx_script.specs.declared.Script.{Script as AnyScript};

use crate::cursor::Cursor;
use gx_ids::{SessionId, Table};
use gx_script::Script;
use gx_tree::{Schema, Txt};

fn is_name_byte(byte: u8) -> bool
    ensures { result ≡ limits.is_name_byte byte }
{
    matches!(byte, b'a'..=b'z' | b'0'..=b'9' | b'_')
}

fn name_len(left: &[u8]) -> usize
    ensures value { result ≡ prefix_len limits.is_name_byte left.now }
    ensures within { result ≤ length left.now }
{
    for count in 0..left.len() {
        if !is_name_byte(left[count]) {
            return count;
        }
    }
    left.len()
}

fn place_of(names: &[Txt], name: &[u8]) -> Option<usize>
    ensures { result ≡ of.found 0 names.now name.now }
{
    for (place, known) in names.iter().enumerate() {
        if known.as_slice() == name {
            return Some(place);
        }
    }
    None
}

fn table_place_of(tables: &[Schema], name: &[u8]) -> Option<usize>
    ensures { result ≡ of.found 0 (names_of tables.now) name.now }
{
    for (place, table) in tables.iter().enumerate() {
        if table.name.as_slice() == name {
            return Some(place);
        }
    }
    None
}

impl<'a> Cursor<'a> {
    fn named(&mut self, names: &[Txt]) -> Option<u8>
        ensures { IsRead result self.new (of.named names.now self.old) }
    {
        let left = self.left();
        let (name, left) = left.split_at(name_len(left));
        let place = place_of(names, name)?;
        self.go_to(left);
        u8::try_from(place).ok()
    }

    fn table_named(&mut self, tables: &[Schema]) -> Option<u8>
        ensures { IsRead result self.new (of.named (names_of tables.now) self.old) }
    {
        let left = self.left();
        let (name, left) = left.split_at(name_len(left));
        let place = table_place_of(tables, name)?;
        self.go_to(left);
        u8::try_from(place).ok()
    }

    /// Reads a session, by the first of the script's with that name.
    pub fn session(&mut self, script: &Script) -> Option<SessionId>
        ensures { IsRead result self.new (of.session script.now self.old) }
    {
        self.skip(b" ")?;
        let place = self.named(script.sessions.as_slice())?;
        Some(SessionId(place))
    }

    /// Reads a table, by the first of the script's with that name.
    pub fn table(&mut self, script: &Script) -> Option<Table>
        ensures { IsRead result self.new (of.table script.now self.old) }
    {
        self.skip(b" ")?;
        let place = self.table_named(script.tables.as_slice())?;
        Some(Table(place))
    }
}

/// Sessions are read by their names.
pub fn sessions_are_read()
    ensures { (script : AnyScript) → IsReaderOf (λ session. word_text (session_name script session)) (IsSession script) EndsName (of.session script) }
{}

/// Tables are read by their names.
pub fn tables_are_read()
    ensures { (script : AnyScript) → IsReaderOf (λ table. word_text (table_name script table)) (IsTable script) EndsName (of.table script) }
{}
