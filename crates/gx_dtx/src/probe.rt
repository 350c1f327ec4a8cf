// What a node holds may go to its thread.

use crate::dtx::Dtx;

fn is_send<T: Send>(_value: &T) {}

pub(crate) fn dtx_is_send(dtx: &Dtx) {
    is_send(dtx);
}
