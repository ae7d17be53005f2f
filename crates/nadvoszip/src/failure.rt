// Why a run ends with status 1: an enum, since an anyhow::Error would cut a long message.
use std::alloc::AllocError;
use std::io;
use thiserror::Error;

#[derive(Debug, Drop, Error)]
pub enum Failure {
    #[error("unknown command {0:?}; see nadvoszip --help")]
    UnknownCommand(String),
    #[error("unexpected argument {0:?}; see nadvoszip --help")]
    UnexpectedArgument(String),
    // what is wrong with a line of the input, in words
    #[error("{0}")]
    Input(String),
    #[error("line {line}: the input is not UTF-8 text")]
    NotText { line: usize },
    #[error("the input is longer than 16 MiB")]
    TooLong,
    #[error("out of memory")]
    Memory(#[from(alloc)] AllocError),
    #[error(transparent)]
    Io(#[from] io::Error),
}
