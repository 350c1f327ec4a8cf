// What a node holds may go to its thread.

use crate::map::XidMap;
use crate::versions::Versions;

fn is_send<T: Send>(_value: &T) {}

pub(crate) fn kept_is_send(map: &XidMap, versions: &Versions) {
    is_send(map);
    is_send(versions);
}
