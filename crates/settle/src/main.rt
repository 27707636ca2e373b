// settle plays histories that are written as text (docs/HISTORY-FILE.md) and prints what each call answers.
#![tactic(auto)]

mod files;
mod input;
mod options;

use files::Command;
use options::{Task, find_options, print_help, print_unknown};
use std::env::Env;
use std::fs::Files;
use std::io;
use std::io::Input;

// Plays what the command names, or prints what it can be asked. The tasks are a closed set, and the match names what each does.
fn run(rt: &(impl Env + Files + Input + Print)) -> io::Result<()> {
    let options = find_options(rt);
    match options.task {
        Task::Play => Command::new(options).play(rt),
        Task::Help => print_help(rt),
        Task::Unknown(i) => {
            print_unknown(rt, i)?;
            print_help(rt)
        }
    }
}

// Whoever reads the answers may close them, as `head` does, and the command ends there.
fn main(rt: HostRuntime) -> io::Result<()> {
    match run(&rt) {
        Err(e) if e.kind() == io::ErrorKind::BrokenPipe => Ok(()),
        ended => ended,
    }
}
