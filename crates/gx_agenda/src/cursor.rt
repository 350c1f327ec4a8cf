/// Where a link stands: how many of its messages, from the first, were lost or delivered as often as they are to be, and
/// whether the next one was delivered once and is delivered once more.
#[derive(Clone, Copy)]
pub struct Cursor {
    pub done: u64,
    pub again: bool,
}
