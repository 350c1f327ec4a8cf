ghost use Rattle.std.specs.Prelude.{ℕ, ◌<◌, All, List};
ghost use Rattle.std.specs.List.Sorted.{IsPermutation, IsSorted};
ghost use Rattle.gx_tree.specs.declared.row.KeyedRow.{KeyedRow};
ghost use Rattle.gx_tree.specs.declared.value.Value.{Value};
ghost use Rattle.gx_meaning.specs.Answer.{dealt_by, together};
ghost use Rattle.gx_meaning.specs.Order.{group_order, in_order, row_order};
ghost use Rattle.gx_meaning.specs.declared.sort_key.SortKey.{SortKey};

/// Rows that an owner deals to so many parts are, part behind part, the same rows in another order. So it is with the segments'
/// rows, whose owner is their place.
pub fn dealt_rows_are_divided()
    ensures { (owner : KeyedRow → ℕ) (n : ℕ) (rows : List KeyedRow) → All (λ row. owner row < n) rows → IsPermutation rows (together (dealt_by owner n rows)) }
{}

/// The definition's lists in an order have the same items, and none is less than the one before it.
pub fn ordered_lists_are_sorted()
    ensures rows { (keys : List SortKey) (rows : List KeyedRow) → IsPermutation rows (in_order (row_order keys) rows) × IsSorted (row_order keys) (in_order (row_order keys) rows) }
    ensures groups { (keys : List SortKey) (groups : List (List Value)) → IsPermutation groups (in_order (group_order keys) groups) × IsSorted (group_order keys) (in_order (group_order keys) groups) }
{}
