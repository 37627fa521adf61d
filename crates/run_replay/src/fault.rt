use thiserror::Error;

/// Why a replay stopped: there was no memory, the entry with this number (from 1) makes no step, or
/// the output failed.
#[derive(Clone, Copy, Debug, PartialEq, Eq, Error)]
pub enum ReplayFault {
    #[error("NoMemory")]
    NoMemory,
    #[error("NotEnabled")]
    NotEnabled(u32),
    #[error("Write")]
    Write,
}
