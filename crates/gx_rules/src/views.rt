ghost use Rattle.std.specs.Prelude.{◌≡◌, ◌==◌, List, filter};
ghost use Rattle.gx_ids.specs.declared.ids.Cid.{Cid};
ghost use Rattle.gx_ids.specs.declared.ids.Gxid.{Gxid};
ghost use Rattle.gx_ids.specs.declared.ids.Table.{Table};
ghost use Rattle.gx_ids.specs.declared.rid.Rid.{Rid};
ghost use Rattle.gx_tree.specs.declared.row.KeyedRow.{KeyedRow};
ghost use Rattle.gx_dsnap.specs.declared.snapshot.Snapshot.{Snapshot};
ghost use Rattle.gx_meaning.specs.Answer.{AreRising};
ghost use Rattle.gx_store.specs.Marks.{is_same_gxid};
ghost use Rattle.gx_store.specs.Rows.{row_at};
ghost use Rattle.gx_rules.specs.Segments.{Seg};
ghost use Rattle.gx_rules.specs.Shown.{kept_of, shown};
ghost use Rattle.gx_rules.specs.Last.{AreKeptInOrder, counting, image_in, last_image, row_of};

/// The rows that a segment shows to a command rise by their identities, and each is the last that the versions which count
/// say of it, unless that is gone.
pub fn shown_rows_are_the_last()
    ensures rising { (s : Seg) (snapshot : Snapshot) (g : Gxid) (c : Cid) (table : Table) → AreRising (shown s snapshot g c table) }
    ensures images { (s : Seg) (snapshot : Snapshot) (g : Gxid) (c : Cid) (table : Table) (rid : Rid)
        → row_at (shown s snapshot g c table) rid ≡ row_of (last_image rid (counting s snapshot g c table)) }
{}

/// What a segment keeps of a transaction for its journal rises by identities, and is the last that the transaction's
/// versions say of each row.
pub fn kept_rows_are_the_last()
    ensures rising { (s : Seg) (g : Gxid) → AreKeptInOrder (kept_of s g) }
    ensures images { (s : Seg) (g : Gxid) (rid : Rid) → image_in rid (kept_of s g) ≡ last_image rid (filter (λ v. is_same_gxid v.gxid g) s.versions) }
{}

/// Two lists of rows that rise by their identities are the same where each identity has the same row in both.
pub fn rows_are_their_images()
    ensures { (xs ys : List KeyedRow) → AreRising xs → AreRising ys → ((rid : Rid) → row_at xs rid ≡ row_at ys rid) → xs ≡ ys }
{}
