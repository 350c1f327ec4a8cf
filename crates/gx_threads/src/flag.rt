use std::sync::{Condvar, Mutex, Wait};

/// What a thread parks on.
#[derive(Drop)]
pub struct Flag {
    raised: Mutex<bool>,
    changed: Condvar,
}

impl Flag {
    /// A flag that isn't raised.
    pub fn new() -> Flag {
        Flag {
            raised: Mutex::new(false),
            changed: Condvar::new(),
        }
    }

    /// Waits until it is raised, and lowers it.
    pub fn park<R: Wait>(&self, rt: &R) {
        let mut raised = self
            .changed
            .wait_while(rt, self.raised.lock(rt), |raised| !*raised);
        *raised = false;
    }

    /// Raises it.
    pub fn unpark<R: Wait>(&self, rt: &R) {
        let mut raised = self.raised.lock(rt);
        *raised = true;
        self.changed.notify_all();
    }
}
