use thiserror::Error;

/// Why an entry made no step: there was no memory, the run has ended, 4,000,000,000 steps were made,
/// or the table of steps gives nothing.
#[derive(Clone, Copy, Debug, PartialEq, Eq, Error)]
pub enum StepFault {
    #[error("NoMemory")]
    NoMemory,
    #[error("Over")]
    Over,
    #[error("TooMany")]
    TooMany,
    #[error("NotEnabled")]
    NotEnabled,
}
