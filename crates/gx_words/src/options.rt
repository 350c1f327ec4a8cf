/// What the command line asks for.
#[derive(Clone, Copy)]
pub struct Options {
    /// The seed of the driver; without one it takes the first event of the schedule.
    pub seed: Option<u64>,
    /// Whether the nodes work in threads; without them a driver takes one event after the other.
    pub threads: bool,
    /// Whether the run's text follows.
    pub trace: bool,
    /// After how many events a run of a driver stops.
    pub turns: u64,
    /// The number from which the script is generated, in place of one that is read.
    pub work: Option<u64>,
}
