/// Why an item wasn't added to a journal: the outside refused it, or memory ran out.
#[derive(Clone, Copy)]
pub enum AppendFault {
    Failed,
    OutOfMemory,
}

/// Where a node keeps items for ever.
pub trait Journal: Drop {
    ghost use Rattle.std.specs.Prelude.{◌≡◌, slice_get};
    ghost use Rattle.std.specs.Option.{option_copied};
    ghost use Rattle.gx_outside.specs.Shelves.{Shelf, IsAppended};

    /// The items kept, and how often it has failed.
    ghost shelf: { Self → Shelf };

    /// Adds an item behind those that are kept. A failure raises the count. An append whose failure the count has no room for isn't tried: it
    /// is answered by want of memory.
    fn append(&mut self, item: Vec<u8>) -> Result<(), AppendFault>
        ensures appended { IsAppended (shelf self.old) (shelf self.new) item.items result };

    /// The item at a place, from 0, the oldest first. None where no more items are kept.
    fn item(&self, place: u64) -> Option<&[u8]>
        ensures { option_copied result ≡ slice_get (shelf self.now).items place };

    /// How often it has failed. The count never falls, and rises with each failure.
    fn faults(&self) -> u64
        ensures { result ≡ (shelf self.now).faults };
}
