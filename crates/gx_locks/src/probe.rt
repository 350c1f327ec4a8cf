// What a node holds may go to its thread.

use crate::table::LockTable;

fn is_send<T: Send>(_value: &T) {}

pub(crate) fn table_is_send(table: &LockTable) {
    is_send(table);
}
