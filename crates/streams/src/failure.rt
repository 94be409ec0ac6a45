//! What can keep an input from being answered to its end.
use std::alloc::AllocError;
use std::io;
use thiserror::Error;

/// Why an input was not answered to its end. Its text is that of the error that it holds.
#[derive(Debug, Drop, Error)]
pub enum Failure {
    /// A read failed. What had been read before is answered, as far as lines had ended.
    #[error("{0}")]
    Read(io::Error),
    /// There was no memory for the answers or for the start of a line that has not ended.
    #[error("{0}")]
    Memory(AllocError),
    /// The answers could not be written.
    #[error("{0}")]
    Write(io::Error),
}
