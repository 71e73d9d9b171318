// The program `kushrebat`: reads a script, carries it out line by line, and prints an answer for each command.
#![tactic(auto)]

mod answer;
mod command;
mod help;
mod rows;
mod script;
mod session;

use help::{HELP, USAGE};
use script::lines::Lines;
use session::Session;
use std::io::{BufWriter, Read, Write};
use std::process::ExitCode;
use std::{env, fs, io};
use thiserror::Error;

// Why the program ends before its task is done.
#[derive(Debug, Drop, Error)]
enum Failure {
    // The words behind the program's name make no sense.
    #[error("{usage}", usage = USAGE)]
    Usage,
    // The script cannot be read, or the answers cannot be written.
    #[error("kushrebat: {0}")]
    Io(#[from] io::Error),
}

// What the program is asked for.
#[derive(Drop)]
enum Task {
    // To answer the script on standard input.
    Input,
    // To answer the script in a file.
    File(String),
    Help,
}

// The task by the words behind the program's name.
fn asked(rt: &HostRuntime) -> Result<Task, Failure> {
    let mut words = env::args(rt)?.skip(1);
    let Some(word) = words.next() else {
        return Ok(Task::Input);
    };
    if words.next().is_some() {
        return Err(Failure::Usage);
    }
    Ok(if word.as_str() == "--help" {
        Task::Help
    } else {
        Task::File(word)
    })
}

// All of standard input.
fn read_input(rt: &HostRuntime) -> io::Result<Vec<u8>> {
    let mut script = Vec::new(rt.alloc());
    rt.stdin().read_to_end(&mut script)?;
    Ok(script)
}

// Prints the answers to a script. What a line is turned down for does not keep the next from being carried out.
fn answer_script(rt: &HostRuntime, script: &[u8]) -> io::Result<()> {
    let mut session = Session::new();
    let mut out = BufWriter::new(rt.alloc(), rt.stdout())?;
    for answer in Lines::of(script).filter_map(|line| session.answer_line(rt.alloc(), line)) {
        writeln!(out, "{answer}")?;
    }
    out.flush()
}

fn run(rt: &HostRuntime) -> Result<(), Failure> {
    match asked(rt)? {
        Task::Input => answer_script(rt, read_input(rt)?.as_slice())?,
        Task::File(name) => answer_script(rt, fs::read(rt, name)?.as_slice())?,
        Task::Help => print!(rt; "{USAGE}\n{HELP}")?,
    }
    Ok(())
}

// The status is 0 once the script is read to its end, whatever was turned down in it.
fn main(rt: HostRuntime) -> ExitCode {
    match run(&rt) {
        Ok(()) => ExitCode::SUCCESS,
        Err(failure) => {
            let _ = eprintln!(rt; "{failure}");
            ExitCode::FAILURE
        }
    }
}
