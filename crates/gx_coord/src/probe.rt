// What a node holds may go to its thread.

use crate::coord::Coord;

fn is_send<T: Send>(_value: &T) {}

pub(crate) fn coord_is_send(coord: &Coord) {
    is_send(coord);
}
