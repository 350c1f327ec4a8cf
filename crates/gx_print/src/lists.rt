// Lists with commas between.
ghost use Rattle.std.specs.Prelude.{◌≡◌, ◌++◌, codes, OnOk, List, map, ℕ};
ghost use Rattle.std.specs.List.{flat_map};
ghost use Rattle.gx_tree.specs.declared.schema.Column.{Column};
ghost use Rattle.gx_print.specs.Statements.{list_text};

use gx_ids::Mem;
use gx_text::push_bytes;
use gx_tree::Column;

/// What the parts of a list may be: how each is written over the columns of a table, and the bytes of what is written.
pub trait Printed: Sized {
    ghost Written: { Type 0 };

    ghost written: { List Column → Self → Written };

    ghost form: { Written → List ℕ };

    /// Adds the printed form over the columns of a table.
    fn push(&self, text: &mut Vec<u8>, columns: &[Column]) -> Mem<()>
        ensures { OnOk result (text.new.items ≡ text.old.items ++ form (written columns.now self.now)) };
}

// Adds parts, each behind a comma.
fn push_others<T: Printed>(text: &mut Vec<u8>, columns: &[Column], others: &[T]) -> Mem<()>
    ensures { OnOk result (text.new.items ≡ text.old.items ++ flat_map (λ part. codes ", " ++ T.form part) (map (T.written columns.now) others.now)) }
{
    for part in others {
        push_bytes(text, b", ")?;
        part.push(text, columns)?;
    }
    Ok(())
}

/// Adds the printed forms of parts, with a comma between.
pub fn push_list<T: Printed>(text: &mut Vec<u8>, columns: &[Column], parts: &[T]) -> Mem<()>
    ensures { OnOk result (text.new.items ≡ text.old.items ++ list_text T.form (map (T.written columns.now) parts.now)) }
{
    let [first, others @ ..] = parts else {
        return Ok(());
    };
    first.push(text, columns)?;
    push_others(text, columns, others)
}
