// What a lock is taken on, and its mode.
ghost use Rattle.std.specs.Prelude.{◌≡◌, codes};
ghost use Rattle.gx_modes.specs.Table.{number_of};
ghost use Rattle.gx_report.specs.LockText.{object_text};
ghost use Rattle.gx_report.specs.Words.{number_text};
ghost use Rattle.gx_script.specs.declared.Script.{Script as AnyScript};
ghost use Rattle.gx_trace.specs.Fields.{gxid, rid};
ghost use Rattle.gx_trace.specs.Lawful.{IsObject};
ghost use Rattle.gx_trace.specs.Names.{table};
ghost use Rattle.gx_trace.specs.Objects as of;
ghost use Rattle.gx_trace.specs.Readers.{EndsName, EndsNumber, IsRead, IsReaderOf, behind, made};
ghost use Rattle.gx_waits.specs.declared.object.Object.TheVariants.{Relation, Tuple, Transaction};

use crate::cursor::Cursor;
use gx_modes::Mode;
use gx_script::Script;
use gx_waits::Object;

fn mode_of(number: u8) -> Option<Mode>
    ensures { result ≡ of.mode_among of.all_modes number }
{
    match number {
        1 => Some(Mode::AccessShare),
        2 => Some(Mode::RowShare),
        3 => Some(Mode::RowExclusive),
        4 => Some(Mode::ShareUpdateExclusive),
        5 => Some(Mode::Share),
        6 => Some(Mode::ShareRowExclusive),
        7 => Some(Mode::Exclusive),
        8 => Some(Mode::AccessExclusive),
        _ => None,
    }
}

impl<'a> Cursor<'a> {
    fn relation(&mut self, script: &Script) -> Option<Object>
        ensures { IsRead result self.new (made (λ t. Relation t) (behind (codes " relation") (table script.now) self.old)) }
    {
        self.skip(b" relation")?;
        let table = self.table(script)?;
        Some(Object::Relation(table))
    }

    fn tuple(&mut self) -> Option<Object>
        ensures { IsRead result self.new (made (λ r. Tuple r) (behind (codes " tuple") rid self.old)) }
    {
        self.skip(b" tuple")?;
        let rid = self.rid()?;
        Some(Object::Tuple(rid))
    }

    fn transaction(&mut self) -> Option<Object>
        ensures { IsRead result self.new (made (λ g. Transaction g) (behind (codes " transaction") gxid self.old)) }
    {
        self.skip(b" transaction")?;
        let gxid = self.gxid()?;
        Some(Object::Transaction(gxid))
    }

    /// Reads what a lock is taken on.
    pub fn object(&mut self, script: &Script) -> Option<Object>
        ensures { IsRead result self.new (of.object script.now self.old) }
    {
        let left = self.left();
        if let Some(object) = self.relation(script) {
            return Some(object);
        }
        self.go_to(left);
        if let Some(object) = self.tuple() {
            return Some(object);
        }
        self.go_to(left);
        self.transaction()
    }

    /// Reads a lock's mode, by its number.
    pub fn mode(&mut self) -> Option<Mode>
        ensures { IsRead result self.new (of.mode self.old) }
    {
        self.skip(b" ")?;
        let number = self.small()?;
        mode_of(number)
    }
}

/// What locks are taken on is read as it is printed.
pub fn objects_are_read()
    ensures { (script : AnyScript) → IsReaderOf (object_text script) (IsObject script) EndsName (of.object script) }
{}

/// Modes are read as they are printed.
pub fn modes_are_read()
    ensures { IsReaderOf (λ mode. number_text (number_of mode)) (λ _. Unit {0}) EndsNumber of.mode }
{}
