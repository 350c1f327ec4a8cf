use crate::roles::{InOrder, View};
use crossbeam_queue::{RuledSegQueue, SegPass};
use gx_msg::Envelope;

/// The queue of a link, under its rule.
pub type Queue = RuledSegQueue<Envelope, View, InOrder>;

/// By which an end of a link uses the queue.
pub type Pass = SegPass<Envelope, View>;

/// A link's queue, which both ends own. The end that is dropped last frees it.
pub struct Line {
    pub queue: Queue,
}

impl Drop for Line {
    fn drop(self) {
        let Line { queue } = self;
        queue.destroy();
    }
}
