// What a node holds may go to its thread.

use crate::groups::Groups;

fn is_send<T: Send>(_value: &T) {}

pub(crate) fn groups_are_send(groups: &Groups) {
    is_send(groups);
}
