// Each end may go to a thread of its own.

use crate::receiver::LinkIn;
use crate::sender::LinkOut;

fn is_send<T: Send>(_value: &T) {}

pub(crate) fn ends_are_send(out: &LinkOut, inward: &LinkIn) {
    is_send(out);
    is_send(inward);
}
