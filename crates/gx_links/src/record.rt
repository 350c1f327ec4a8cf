/// How many envelopes were sent on a link, and how many of them were received.
#[derive(Clone, Copy)]
pub struct LinkRecord {
    pub sent: u64,
    pub received: u64,
}
