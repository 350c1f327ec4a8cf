use crate::run::Run;

/// How the work before the writing ended: with a run and its text, with one that stopped once its turns were taken, with one that
/// is stuck, with words that aren't in the language, with the text of a refusal, or with neither.
#[derive(Drop)]
pub enum Attempt {
    Done(Run, Vec<u8>),
    Stopped(Run, Vec<u8>),
    Stuck(Run, Vec<u8>),
    Usage,
    Refused(Vec<u8>),
    ReadFault,
    TooLarge,
    OutOfMemory(Run),
}
