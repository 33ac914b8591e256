// What keeps a session from running.
use std::alloc::AllocError;
use std::io;
use thiserror::Error;

#[derive(Debug, Drop, Error)]
pub(crate) enum Trouble {
    #[error("cannot read the arguments: {0}")]
    Arguments(io::Error),
    #[error("too many arguments: name one file, or none")]
    TooManyArguments,
    #[error("cannot read standard input: {0}")]
    Input(io::Error),
    #[error("cannot read {0}: {1}")]
    File(String, io::Error),
    #[error("out of memory")]
    NoMemory(#[from(alloc)] AllocError),
    #[error("cannot write: {0}")]
    Unwritten(io::Error),
}
