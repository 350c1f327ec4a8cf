ghost use Rattle.std.specs.Prelude.{◌≡◌, ◌++◌, ◌∷◌, [], length, IfOk, OnOk};
ghost use Rattle.std.specs.List.{flat_map};
ghost use Rattle.gx_ids.specs.Rid.{text_of};
ghost use Rattle.gx_msg.specs.ItemBytes.{line_of_kept};
ghost use Rattle.gx_slices.specs.Kept.{AreSound, IsRising, kept_in, kept_rows, listed, put_all};
ghost use Rattle.gx_store.specs.Journals.{kept_with};

use gx_ids::{Mem, Rid, Table};
use gx_msg::push_image;
use gx_node::Written;
use gx_text::{push_byte, push_count};
use gx_tree::Row;
use std::alloc::Global;
use std::collections::BTreeMap;
use std::marker::Model;
use std::mem;

/// The last that a transaction wrote of a row here; an image of `None` is a row that is gone.
#[derive(Drop)]
pub struct Last {
    pub table: Table,
    pub image: Option<Row>,
}

/// Rows by their identities. Most transactions write one here, and of the others most go from row to row as identities rise: these are a list
/// with its last identity.
#[derive(Drop)]
pub(crate) enum Rows {
    Empty,
    One(Rid, Last),
    Rising(Rid, Vec<(Rid, Last)>),
    Many(BTreeMap<Rid, Last>),
}

/// What a transaction wrote here: the last of each row, by the rows' identities. Contracts see the list that stands in the
/// items of the journal.
#[derive(Drop)]
pub struct KeptRows {
    alloc: Global,
    rows: Rows,
}

impl Model for KeptRows {
    ghost use Rattle.std.specs.Prelude.{List};
    ghost use Rattle.gx_msg.specs.declared.item.Kept.{Kept};
    ghost use Rattle.gx_slices.specs.Kept.{AreSound, kept_rows};

    ghost Value = { List Kept };

    ghost view = { λ a. kept_rows a.rows };

    ghost invariant = { λ a. AreSound a.rows };
}

impl KeptRows {
    /// Nothing was written.
    pub fn new(alloc: Global) -> KeptRows
        ensures { result ≡ [] }
    {
        KeptRows {
            alloc,
            rows: Rows::Empty,
        }
    }

    /// A row was written, again or for the first time.
    pub fn put(&mut self, rid: Rid, table: Table, image: Option<Row>) -> Mem<()>
        ensures { OnOk result (self.new ≡ kept_with (record { rid = rid; table = table; image = image }) self.old) }
    {
        put_row(self.alloc, &mut self.rows, rid, Last { table, image })
    }
}

impl Written for KeptRows {
    ghost rows = { λ kept. kept };

    fn count(&self) -> usize {
        count_rows(&self.rows)
    }

    fn push_lines(&self, text: &mut Vec<u8>) -> Mem<()> {
        push_all(text, &self.rows)
    }
}

fn put_row(alloc: Global, rows: &mut Rows, rid: Rid, last: Last) -> Mem<()>
    requires { AreSound rows.old }
    ensures put { OnOk result (kept_rows rows.new ≡ kept_with (kept_in (rid, last)) (kept_rows rows.old)) }
    ensures sound { AreSound rows.new }
{
    let before = mem::replace(rows, Rows::Empty);
    *rows = with_row(alloc, before, rid, last)?;
    Ok(())
}

// The rows with one more, or with a later image of one.
fn with_row(alloc: Global, rows: Rows, rid: Rid, last: Last) -> Mem<Rows>
    requires { AreSound rows }
    ensures put { IfOk result (λ all. kept_rows all ≡ kept_with (kept_in (rid, last)) (kept_rows rows)) }
    ensures sound { IfOk result AreSound }
{
    match rows {
        Rows::Empty => Ok(Rows::One(rid, last)),
        Rows::One(first, before) => {
            let list = alone(alloc, first, before)?;
            with_row_behind(alloc, first, list, rid, last)
        }
        Rows::Rising(top, list) => with_row_behind(alloc, top, list, rid, last),
        Rows::Many(mut rows) => {
            insert_row(&mut rows, rid, last)?;
            Ok(Rows::Many(rows))
        }
    }
}

fn alone(alloc: Global, rid: Rid, last: Last) -> Mem<Vec<(Rid, Last)>>
    ensures { IfOk result (λ list. list.items ≡ (rid, last) ∷ []) }
{
    let list = Vec::new(alloc);
    with_last(list, rid, last)
}

fn with_last(list: Vec<(Rid, Last)>, rid: Rid, last: Last) -> Mem<Vec<(Rid, Last)>>
    ensures { IfOk result (λ all. all.items ≡ list.items ++ (rid, last) ∷ []) }
{
    let mut list = list;
    list.push((rid, last))?;
    Ok(list)
}

// A list that has risen so far goes on with a row above it; else a map takes its place.
fn with_row_behind(
    alloc: Global,
    top: Rid,
    list: Vec<(Rid, Last)>,
    rid: Rid,
    last: Last,
) -> Mem<Rows>
    requires { IsRising top list.items }
    ensures put { IfOk result (λ all. kept_rows all ≡ kept_with (kept_in (rid, last)) (listed list.items)) }
    ensures sound { IfOk result AreSound }
{
    if top < rid {
        let list = with_last(list, rid, last)?;
        Ok(Rows::Rising(rid, list))
    } else {
        let mut rows = mapped(alloc, list)?;
        insert_row(&mut rows, rid, last)?;
        Ok(Rows::Many(rows))
    }
}

fn mapped(alloc: Global, list: Vec<(Rid, Last)>) -> Mem<BTreeMap<Rid, Last>>
    ensures { IfOk result (λ rows. listed rows.entries ≡ put_all [] list.items) }
{
    let mut rows = BTreeMap::new(alloc);
    for (rid, last) in list {
        insert_row(&mut rows, rid, last)?;
    }
    Ok(rows)
}

fn insert_row(rows: &mut BTreeMap<Rid, Last>, rid: Rid, last: Last) -> Mem<()>
    ensures { OnOk result (listed rows.new.entries ≡ kept_with (kept_in (rid, last)) (listed rows.old.entries)) }
{
    rows.insert(rid, last)?;
    Ok(())
}

fn count_rows(rows: &Rows) -> usize
    ensures { result ≡ length (kept_rows rows.now) }
{
    match rows {
        Rows::Empty => 0,
        Rows::One(_, _) => 1,
        Rows::Rising(_, list) => list.len(),
        Rows::Many(rows) => rows.len(),
    }
}

fn push_all(text: &mut Vec<u8>, rows: &Rows) -> Mem<()>
    ensures { OnOk result (text.new.items ≡ text.old.items ++ flat_map line_of_kept (kept_rows rows.now)) }
{
    match rows {
        Rows::Empty => Ok(()),
        Rows::One(rid, last) => push_line(text, *rid, last),
        Rows::Rising(_, list) => push_list(text, list.as_slice()),
        Rows::Many(rows) => push_many(text, rows),
    }
}

fn push_list(text: &mut Vec<u8>, list: &[(Rid, Last)]) -> Mem<()>
    ensures { OnOk result (text.new.items ≡ text.old.items ++ flat_map (λ e. line_of_kept (kept_in e)) list.now) }
{
    for (rid, last) in list {
        push_line(text, *rid, last)?;
    }
    Ok(())
}

fn push_many(text: &mut Vec<u8>, rows: &BTreeMap<Rid, Last>) -> Mem<()>
    ensures { OnOk result (text.new.items ≡ text.old.items ++ flat_map line_of_kept (listed rows.now.entries)) }
{
    for (rid, last) in rows {
        push_line(text, *rid, last)?;
    }
    Ok(())
}

// A row's line.
fn push_line(text: &mut Vec<u8>, rid: Rid, last: &Last) -> Mem<()>
    ensures { OnOk result (text.new.items ≡ text.old.items ++ line_of_kept (kept_in (rid, last.now))) }
{
    push_rid(text, rid)?;
    push_byte(text, b' ')?;
    push_count(text, u128::from(last.table.0))?;
    push_byte(text, b' ')?;
    push_image(text, &last.image)?;
    push_byte(text, b'\n')
}

fn push_rid(text: &mut Vec<u8>, rid: Rid) -> Mem<()>
    ensures { OnOk result (text.new.items ≡ text.old.items ++ text_of rid) }
{
    push_count(text, u128::from(rid.gxid.0))?;
    push_byte(text, b'.')?;
    push_count(text, u128::from(rid.cid.0))?;
    push_byte(text, b'.')?;
    push_count(text, u128::from(rid.ordinal))
}
