use crate::words::Explained;
use record::refusal::Refusal;
use std::io;
use thiserror::Error;

const USAGE: &str = "usage: tusnagol inspect RECORD [CARD]
       tusnagol < COMMANDS    one command a line; # starts a comment";

// Why a command ends without what it was asked for.
#[derive(Clone, Copy, Debug, Error)]
pub enum Failure<'a> {
    #[error("{usage}", usage = USAGE)]
    Usage,
    #[error("{path}: cannot be read: {error}")]
    Unreadable { path: &'a str, error: io::Error },
    #[error("{path}: {why}", why = Explained(*.refusal))]
    Refused { path: &'a str, refusal: Refusal },
    #[error("cannot go on: {0}")]
    Output(#[from] io::Error),
}

impl<'a> Failure<'a> {
    // A refusal is an answer about the file and goes to standard output; anything else is an error.
    pub(crate) fn tell(&self, rt: &HostRuntime) -> io::Result<()> {
        if let Failure::Refused { .. } = self {
            return println!(rt; "{self}");
        }
        eprintln!(rt; "tusnagol: {self}")
    }
}
