// What all threads share.
use crate::flag::Flag;
use crate::lock::{CoordLock, SegmentLock, SetName};
use crate::parts::Part;
use gx_outside::Journal;
use std::sync::Wait;
use std::sync::atomic::{AtomicBool, Ordering};

/// A thread's part, and what it parks on.
#[derive(Drop)]
pub struct Post {
    pub part: Part,
    pub flag: Flag,
}

/// Each node's cell behind its lock, a post for each thread but the calling one, and whether there are resource groups.
#[derive(Drop)]
pub struct Hall<J: Journal, N: SetName> {
    pub coord: CoordLock<J, N>,
    pub segments: Vec<SegmentLock<J, N>>,
    pub posts: Vec<Post>,
    pub grouped: bool,
    pub over: AtomicBool,
    pub failed: AtomicBool,
}

impl<J: Journal, N: SetName> Hall<J, N> {
    /// Whether the threads are to end.
    pub fn is_over(&self) -> bool {
        self.over.load(Ordering::SeqCst)
    }

    /// Whether memory ran out in a thread.
    pub fn has_failed(&self) -> bool {
        self.failed.load(Ordering::SeqCst)
    }

    /// The threads are to end.
    pub fn end(&self) {
        self.over.store(true, Ordering::SeqCst);
    }

    /// Memory ran out in a thread, and all are to end.
    pub fn fail(&self) {
        self.failed.store(true, Ordering::SeqCst);
        self.end();
    }

    /// Wakes all that are parked.
    pub fn wake<R: Wait>(&self, rt: &R) {
        for post in &self.posts {
            post.flag.unpark(rt);
        }
    }

    /// Wakes whom a step that the coordinator made by itself may concern: the segments' threads, and where there are groups those
    /// of all sessions too, one of which may have got a slot.
    pub fn wake_behind<R: Wait>(&self, rt: &R) {
        for post in &self.posts {
            if self.grouped || is_segment(post.part) {
                post.flag.unpark(rt);
            }
        }
    }
}

fn is_segment(part: Part) -> bool {
    match part {
        Part::Segment(_) => true,
        _ => false,
    }
}
