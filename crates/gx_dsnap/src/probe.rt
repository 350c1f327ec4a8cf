// What a node holds may go to its thread.

use crate::snapshot::Snapshot;

fn is_send<T: Send>(_value: &T) {}

pub(crate) fn snapshot_is_send(snapshot: &Snapshot) {
    is_send(snapshot);
}
