// Reads pump test records from the command line.
#![tactic(auto)]

mod command;
mod failure;
mod inspect;
mod shown;
mod tree;
mod words;

use command::Command;
use failure::Failure;
use std::process::ExitCode;
use std::{env, io};

// A command that fails ends the process with status 1, after what went wrong was told.
fn main(rt: HostRuntime) -> io::Result<ExitCode> {
    let words = arguments(&rt)?;
    if words.is_empty() {
        session(&rt)?;
    } else if let Err(failure) = run(&rt, words.as_slice()) {
        failure.tell(&rt)?;
        return Ok(ExitCode::FAILURE);
    }
    Ok(ExitCode::SUCCESS)
}

fn arguments(rt: &HostRuntime) -> io::Result<Vec<String>> {
    Ok(env::args(rt)?.skip(1).collect(rt.alloc())?)
}

// One command.
fn run<'a>(rt: &HostRuntime, words: &'a [String]) -> Result<(), Failure<'a>> {
    match Command::try_from(words)? {
        Command::Inspect { record, card } => inspect::inspect(rt, record, card),
    }
}

// Commands from standard input, one a line; one that fails does not end the others.
fn session(rt: &HostRuntime) -> io::Result<()> {
    for line in rt.lines(rt.alloc()) {
        let line = line?;
        let text = line.as_str().trim();
        if !text.is_empty() && !text.starts_with('#') {
            obey(rt, text)?;
        }
    }
    Ok(())
}

fn obey(rt: &HostRuntime, text: &str) -> io::Result<()> {
    println!(rt; "> {text}")?;
    let words: Vec<String> = text
        .split_whitespace()
        .map(|word| String::from_str(rt.alloc(), word))
        .try_collect(rt.alloc())?;
    if let Err(failure) = run(rt, words.as_slice()) {
        println!(rt; "{failure}")?;
    }
    println!(rt; "")
}
