// What a node holds may go to its thread.

use crate::detector::Detector;

fn is_send<T: Send>(_value: &T) {}

pub(crate) fn detector_is_send(detector: &Detector) {
    is_send(detector);
}
