/// What came of an action.
#[derive(Clone, Copy)]
pub enum Looked {
    /// It was done, and the history has one step more.
    Stepped,
    /// The link was empty at a moment of the call.
    Empty,
    /// The script loses the envelope that was taken.
    Lost,
    /// It isn't to be done now.
    NotNow,
    /// A number or a clock has reached its limit. An envelope that was taken is dropped.
    Worn,
}
