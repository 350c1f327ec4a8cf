// Words on a fault, of which nothing is proved.
use gx_ids::{Mem, OutOfMemory};
use gx_text::push_bytes;
use std::alloc::Global;

/// Words, and whether memory ran out while they were put together, so that they can't be given.
#[derive(Drop)]
pub struct Words {
    bytes: Vec<u8>,
    is_cut_short: bool,
}

impl Words {
    /// No words yet.
    pub fn new(alloc: Global) -> Words {
        Words {
            bytes: Vec::new(alloc),
            is_cut_short: false,
        }
    }

    /// Notes that memory ran out.
    pub fn cut_short(&mut self) {
        self.is_cut_short = true;
    }

    /// Adds bytes.
    pub fn push(&mut self, bytes: &[u8]) {
        match push_bytes(&mut self.bytes, bytes) {
            Ok(()) => {}
            Err(OutOfMemory) => self.is_cut_short = true,
        }
    }

    /// How many bytes there are.
    pub fn len(&self) -> usize {
        self.bytes.len()
    }

    /// The words, where all of them stand there.
    pub fn finish(self) -> Mem<Vec<u8>> {
        if self.is_cut_short {
            drop(self);
            Err(OutOfMemory)
        } else {
            Ok(self.bytes)
        }
    }
}
