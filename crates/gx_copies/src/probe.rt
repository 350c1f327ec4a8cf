// What a history is made of may go to another thread.
use gx_store::{Mark, Steps};

fn is_send<T: Send>(_value: &T) {}

pub(crate) fn mark_is_send(mark: &Mark) {
    is_send(mark);
}

pub(crate) fn steps_are_send(steps: &Steps) {
    is_send(steps);
}
