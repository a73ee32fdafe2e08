// Why the demonstration stops before its end.
use blocks::Refusal;
use std::io;
use thiserror::Error;

#[derive(Debug, Drop, Error)]
pub enum Stop {
    // Shown by `show_refusal`, in the same words.
    #[error("refused   {}", .0.number())]
    Refused(#[from] Refusal),
    #[error("{0}")]
    Printing(#[from] io::Error),
}
