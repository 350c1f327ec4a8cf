// What a node holds may go to its thread.

use crate::held::Held;
use crate::store::LocalStore;

fn is_send<T: Send>(_value: &T) {}

pub(crate) fn kept_is_send(held: &Held, store: &LocalStore) {
    is_send(held);
    is_send(store);
}
