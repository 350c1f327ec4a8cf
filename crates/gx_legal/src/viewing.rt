// The rows that a reader is shown.
ghost use Rattle.std.specs.Prelude.{◌≡◌, ◌++◌, [], IfOk, OnOk};
ghost use Rattle.gx_store.specs.View.{IsView};
ghost use Rattle.gx_legal.specs.Viewed.{images_from, is_seen_by, listed, view_rows};

use crate::committed::committed;
use gx_ids::{Cid, Duplicate, Gxid, Mem, Rid, Table};
use gx_store::Mark;
use gx_tree::{KeyedRow, Row};
use std::alloc::Global;
use std::collections::{BTreeMap, BTreeSet};

/// The rows of a table for a reader whose point has the marks `before`, in the order of their identities. The reader is a command of a
/// transaction, or nobody's.
pub fn view(
    alloc: Global,
    marks: &[Mark],
    before: &[Mark],
    reader: Option<(Gxid, Cid)>,
    table: Table,
) -> Mem<Vec<KeyedRow>>
    ensures rows { IfOk result (λ rows. rows.items ≡ view_rows marks.now before.now reader table) }
    ensures view { IfOk result (λ rows. IsView marks.now before.now reader table rows.items) }
{
    let committed = committed(alloc, before)?;
    let images = last_images(alloc, marks, &committed, reader, table)?;
    rows_of(alloc, &images)
}

fn last_images(
    alloc: Global,
    marks: &[Mark],
    committed: &BTreeSet<Gxid>,
    reader: Option<(Gxid, Cid)>,
    table: Table,
) -> Mem<BTreeMap<Rid, Option<Row>>>
    ensures { IfOk result (λ images. images.entries ≡ images_from (is_seen_by reader committed.now) table [] marks.now) }
{
    let mut images = BTreeMap::new(alloc);
    match add_images(alloc, marks, committed, reader, table, &mut images) {
        Ok(()) => Ok(images),
        Err(fault) => {
            drop(images);
            Err(fault)
        }
    }
}

// What the marks leave of the rows, in place of what earlier ones left.
fn add_images(
    alloc: Global,
    marks: &[Mark],
    committed: &BTreeSet<Gxid>,
    reader: Option<(Gxid, Cid)>,
    table: Table,
    images: &mut BTreeMap<Rid, Option<Row>>,
) -> Mem<()>
    ensures { OnOk result (images.new.entries ≡ images_from (is_seen_by reader committed.now) table images.old.entries marks.now) }
{
    for mark in marks {
        if let Mark::Write {
            gxid,
            cid,
            table: written,
            rid,
            image,
            ..
        } = mark
        {
            if *written == table && is_seen(committed, reader, *gxid, *cid) {
                let copy = image.copy(alloc)?;
                drop(images.insert(*rid, copy)?);
            }
        }
    }
    Ok(())
}

// Whether a reader that sees who has committed is shown the writes of a command.
fn is_seen(committed: &BTreeSet<Gxid>, reader: Option<(Gxid, Cid)>, gxid: Gxid, cid: Cid) -> bool
    ensures { result ≡ is_seen_by reader committed.now gxid cid }
{
    match reader {
        None => committed.contains(&gxid),
        Some((own, number)) => committed.contains(&gxid) || own == gxid && cid < number,
    }
}

fn rows_of(alloc: Global, images: &BTreeMap<Rid, Option<Row>>) -> Mem<Vec<KeyedRow>>
    ensures { IfOk result (λ rows. rows.items ≡ listed images.now.entries) }
{
    let mut rows = Vec::new(alloc);
    match push_rows(alloc, images, &mut rows) {
        Ok(()) => Ok(rows),
        Err(fault) => {
            drop(rows);
            Err(fault)
        }
    }
}

fn push_rows(
    alloc: Global,
    images: &BTreeMap<Rid, Option<Row>>,
    rows: &mut Vec<KeyedRow>,
) -> Mem<()>
    ensures { OnOk result (rows.new.items ≡ rows.old.items ++ listed images.now.entries) }
{
    for (rid, image) in images {
        if let Some(row) = image {
            let row = row.copy(alloc)?;
            rows.push(KeyedRow { rid: *rid, row })?;
        }
    }
    Ok(())
}
