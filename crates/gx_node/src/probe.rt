// What a node holds may go to its thread.

use crate::local::Local;

fn is_send<T: Send>(_value: &T) {}

pub(crate) fn local_is_send(local: &Local) {
    is_send(local);
}
