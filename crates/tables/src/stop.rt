// Why a line was not answered.
use crate::numbers::DigitFault;
use decoding::Fault;
use refusal::Refusal;
use std::alloc::AllocError;
use std::io;
use thiserror::Error;

// It was refused, by a code, by decoding or for its digits, or the machine failed.
#[derive(Debug, Drop, Error)]
pub enum Stop {
    #[error(transparent)]
    Refused(#[from] Refusal),
    #[error("refused: {0}")]
    Undecoded(#[from] Fault),
    #[error("refused: {0}")]
    Unread(#[from] DigitFault),
    #[error(transparent)]
    Memory(#[from(alloc)] AllocError),
    #[error(transparent)]
    Failed(#[from] io::Error),
}
