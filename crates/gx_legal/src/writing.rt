// The writes to a row: the image that a reader is shown, and the last write that counts.
ghost use Rattle.std.specs.Prelude.{◌≡◌, ◌∷◌, [], List, Option, None, Some, take, unwrap_or};
ghost use Rattle.std.specs.Option.{option_copied, option_map};
ghost use Rattle.gx_tree.specs.declared.value.Value.{Value as OneValue};
ghost use Rattle.gx_store.specs.View.{image as image_of, image_after, is_shown_to};
ghost use Rattle.gx_store.specs.Writes.{Written, current as current_of, last_write as last_of};
ghost use Rattle.gx_legal.specs.Selected.{free_write as free_of, if_free as filtered, is_same_write as same_writes};
ghost use Rattle.gx_legal.specs.Written.{counts_for, written_of};

use crate::images::is_same_image;
use crate::marks::{is_aborted, is_committed};
use gx_ids::{Cid, Gxid, Rid, Table};
use gx_store::Mark;
use gx_tree::Row;

/// A write to a row, by its place among the marks.
#[derive(Clone, Copy)]
pub(crate) struct Writing<'a> {
    pub place: usize,
    pub gxid: Gxid,
    pub cid: Cid,
    pub image: &'a Option<Row>,
}

/// The marks before a place.
pub(crate) fn before(marks: &[Mark], place: usize) -> &[Mark]
    ensures { result.now ≡ take place marks.now }
{
    if place < marks.len() {
        &marks[..place]
    } else {
        marks
    }
}

/// Whether a reader whose point has the marks `before` is shown the writes of a command.
fn is_shown(before: &[Mark], reader: Option<(Gxid, Cid)>, gxid: Gxid, cid: Cid) -> bool
    ensures { result ≡ is_shown_to reader before.now gxid cid }
{
    match reader {
        None => is_committed(before, gxid),
        Some((own, number)) => own == gxid && cid < number || is_committed(before, gxid),
    }
}

/// The row's image for a reader whose point has the marks `before`.
pub(crate) fn image<'a>(
    marks: &'a [Mark],
    before: &[Mark],
    reader: Option<(Gxid, Cid)>,
    table: Table,
    rid: Rid,
) -> Option<&'a Row>
    ensures { option_copied result ≡ image_of marks.now before.now reader table rid }
{
    for place in (0..marks.len()).rev() {
        if let Some(image) = shown_image(&marks[place], before, reader, table, rid) {
            return image.as_ref();
        }
    }
    None
}

// The image that the mark leaves of the row, where it writes it and the reader is shown that.
fn shown_image<'a>(
    mark: &'a Mark,
    before: &[Mark],
    reader: Option<(Gxid, Cid)>,
    table: Table,
    rid: Rid,
) -> Option<&'a Option<Row>>
    ensures { (last : Option (List OneValue)) → image_after (is_shown_to reader before.now) table rid last (mark.now ∷ []) ≡ unwrap_or (option_copied result) last }
{
    match mark {
        Mark::Write {
            gxid,
            cid,
            table: written,
            rid: row,
            image,
            ..
        } => {
            let shown = *row == rid && *written == table && is_shown(before, reader, *gxid, *cid);
            shown.then_some(image)
        }
        _ => None,
    }
}

/// The row's current write.
pub(crate) fn current(marks: &[Mark], rid: Rid) -> Option<Writing<'_>>
    ensures { option_map written_of result ≡ current_of marks.now rid }
{
    last_write(marks, marks, None, rid)
}

/// The last of the writes to the row that the reader is shown; with no reader, of those whose transactions haven't aborted.
pub(crate) fn last_write<'a>(
    marks: &'a [Mark],
    before: &[Mark],
    reader: Option<(Gxid, Cid)>,
    rid: Rid,
) -> Option<Writing<'a>>
    ensures { option_map written_of result ≡ last_of (counts_for reader before.now) rid 0 None marks.now }
{
    for place in (0..marks.len()).rev() {
        if let Some(write) = write_at(&marks[place], place, before, reader, rid) {
            return Some(write);
        }
    }
    None
}

// The mark at the place as a write, where it writes the row and counts.
fn write_at<'a>(
    mark: &'a Mark,
    place: usize,
    before: &[Mark],
    reader: Option<(Gxid, Cid)>,
    rid: Rid,
) -> Option<Writing<'a>>
    ensures { (last : Option Written) → last_of (counts_for reader before.now) rid place last (mark.now ∷ []) ≡ unwrap_or (option_map (λ w. Some (written_of w)) result) last }
{
    match mark {
        Mark::Write {
            gxid,
            cid,
            rid: row,
            image,
            ..
        } => {
            let counted = *row == rid && counts(before, reader, *gxid, *cid);
            counted.then_some(Writing {
                place,
                gxid: *gxid,
                cid: *cid,
                image,
            })
        }
        _ => None,
    }
}

fn counts(before: &[Mark], reader: Option<(Gxid, Cid)>, gxid: Gxid, cid: Cid) -> bool
    ensures { result ≡ counts_for reader before.now gxid cid }
{
    match reader {
        None => !is_aborted(before, gxid),
        Some(_) => is_shown(before, reader, gxid, cid),
    }
}

/// The row's current write, where the transaction may write behind it.
pub(crate) fn free_write(marks: &[Mark], gxid: Gxid, rid: Rid) -> Option<Writing<'_>>
    ensures { option_map written_of result ≡ free_of marks.now gxid rid }
{
    match current(marks, rid) {
        None => None,
        Some(write) => if_free(marks, gxid, write),
    }
}

fn if_free<'a>(marks: &[Mark], gxid: Gxid, write: Writing<'a>) -> Option<Writing<'a>>
    ensures { option_map written_of result ≡ filtered marks.now gxid (Some (written_of write.entry)) }
{
    if write.gxid == gxid || is_committed(marks, write.gxid) {
        Some(write)
    } else {
        None
    }
}

/// Whether two writes are one.
pub(crate) fn is_same_write(a: Writing<'_>, b: Writing<'_>) -> bool
    ensures { result ≡ same_writes (written_of a.entry) (written_of b.entry) }
{
    a.place == b.place && a.gxid == b.gxid && a.cid == b.cid && is_same_image(a.image, b.image)
}
