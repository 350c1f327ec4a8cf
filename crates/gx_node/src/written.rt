use gx_ids::Mem;

/// Rows that a transaction has written, as an item of the journal has them.
pub trait Written {
    ghost use Rattle.std.specs.Prelude.{◌≡◌, ◌++◌, List, OnOk, length};
    ghost use Rattle.std.specs.List.{flat_map};
    ghost use Rattle.gx_msg.specs.ItemBytes.{line_of_kept};
    ghost use Rattle.gx_msg.specs.declared.item.Kept.{Kept};

    /// The rows, by their identities.
    ghost rows: { Self → List Kept };

    /// How many there are.
    fn count(&self) -> usize
        ensures { result ≡ length (rows self.now) };

    /// Adds a line for each of them.
    fn push_lines(&self, text: &mut Vec<u8>) -> Mem<()>
        ensures { OnOk result (text.new.items ≡ text.old.items ++ flat_map line_of_kept (rows self.now)) };
}
