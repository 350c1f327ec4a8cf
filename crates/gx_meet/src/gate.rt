use gx_ids::Node;
use gx_outside::Gate;
use std::sync::atomic::{AtomicBool, Ordering};
use std::thread;

// A slice waits for the other segment's first one for so many looks.
const LOOKS: u32 = 1000000;

/// A gate at which the first slice of each of two segments waits until the other's has entered.
#[derive(Drop)]
pub struct Meet {
    first: AtomicBool,
    second: AtomicBool,
    missed: AtomicBool,
}

impl Meet {
    /// A gate that nobody has entered.
    pub fn new() -> Meet {
        Meet {
            first: AtomicBool::new(false),
            second: AtomicBool::new(false),
            missed: AtomicBool::new(false),
        }
    }

    /// Whether a slice looked so often in vain.
    pub fn has_missed(&self) -> bool {
        self.missed.load(Ordering::SeqCst)
    }
}

impl Gate for Meet {
    fn enter(&self, node: Node) {
        let (mine, other) = if node.0 == 1 {
            (&self.first, &self.second)
        } else {
            (&self.second, &self.first)
        };
        mine.store(true, Ordering::SeqCst);
        for _ in 0..LOOKS {
            if other.load(Ordering::SeqCst) {
                return;
            }
            thread::yield_now();
        }
        self.missed.store(true, Ordering::SeqCst);
    }
}
