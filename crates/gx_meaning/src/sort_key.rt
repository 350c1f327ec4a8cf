/// A place in lists of values by which they are ordered.
#[derive(Clone, Copy)]
pub struct SortKey {
    pub place: usize,
    pub desc: bool,
}
