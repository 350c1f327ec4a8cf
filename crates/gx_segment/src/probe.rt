// What a node holds may go to its thread.

use crate::segment::Segment;

fn is_send<T: Send>(_value: &T) {}

pub(crate) fn segment_is_send(segment: &Segment) {
    is_send(segment);
}
