use thiserror::Error;

/// Why the entries of a schedule make no whole run: there was no memory, or the entry with this
/// number (from 1) is the first that makes no step.
#[derive(Clone, Copy, Debug, PartialEq, Eq, Error)]
pub enum CheckFault {
    #[error("NoMemory")]
    NoMemory,
    #[error("NotEnabled")]
    NotEnabled(u32),
}
