// A table is shown by its rows alone.
ghost use Rattle.std.specs.Prelude.{◌≡◌, List, ℕ, map};
ghost use Rattle.gx_report.specs.Text.{table_text};
ghost use Rattle.gx_trace.specs.ShownText.{row_of, rows_text};
ghost use Rattle.gx_tree.specs.declared.row.KeyedRow.{KeyedRow};

/// The text of a table's rows, which have no identities here, is that of the table.
pub fn tables_are_shown_by_their_rows()
    ensures { (name : List ℕ) (rows : List KeyedRow) → rows_text name (map row_of rows) ≡ table_text name rows }
{}
