ghost use Rattle.std.specs.Prelude.{◌≡◌, [], IfOk};
ghost use Rattle.gx_tree.specs.declared.part.Part.TheVariants as part;

use gx_ids::{Duplicate, Mem, Seq, Shared};
use gx_tree::Part;
use std::alloc::Global;
use std::marker::Model;

/// The part of an answer that gives no rows, which all such answers of a segment share.
#[derive(Drop)]
pub(crate) struct NoRows {
    part: Shared<Part>,
}

impl Model for NoRows {
    ghost use Rattle.std.specs.Prelude.{◌≡◌, []};
    ghost use Rattle.gx_tree.specs.declared.part.Part.TheVariants.{Rows};

    ghost Value = { Unit };

    ghost view = { λ a. tt };

    ghost invariant = { λ a. a.part ≡ Rows [] };
}

impl NoRows {
    /// The part, which no answer has yet.
    pub(crate) fn new(alloc: Global) -> Mem<NoRows> {
        Ok(NoRows {
            part: Shared::new(alloc, Part::Rows(Seq::new(alloc)))?,
        })
    }

    /// The part, for one answer more.
    pub(crate) fn share(&self, alloc: Global) -> Mem<Shared<Part>>
        ensures { IfOk result (λ rows. rows ≡ part.Rows []) }
    {
        self.part.copy(alloc)
    }
}
