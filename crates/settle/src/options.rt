// The options of the command.
ghost use Rattle.std.specs.Prelude.{◌≤◌, length, IfSome};

use sheets::answers::{Form, Layout};
use std::env::{Env, FillError};
use std::io;

// Room for an argument of the command, which holds any path.
pub const ARGUMENT_ROOM: usize = 4096;

// What the command does: it plays, or it prints what it can be asked, and first which of its arguments is an option that is
// not known.
#[derive(Clone, Copy, Default)]
pub enum Task {
    #[default]
    Play,
    Help,
    Unknown(usize),
}

// What the command does, how its answers are written, and how many files it names.
#[derive(Clone, Copy, Default)]
pub struct Options {
    pub task: Task,
    pub layout: Layout,
    pub files: usize,
}

// Argument i of the command, in a buffer that is lent for it; none behind the last. One that the buffer cannot hold is
// empty, which names no file, so that it is told as a file that cannot be read.
pub fn argument<'a>(rt: &impl Env, i: usize, word: &'a mut [u8]) -> Option<&'a [u8]>
    ensures { IfSome result (λ a. length a.now ≤ length word.old) }
{
    match rt.arg(i, word) {
        Ok(n) => Some(&word[..n]),
        Err(FillError::TooLong) => Some(&word[..0]),
        Err(FillError::NotPresent) => None,
    }
}

// Whether an argument is an option: a dash and more.
pub fn is_option(word: &[u8]) -> bool {
    matches!(word, [b'-', _, ..])
}

impl Options {
    // One argument more, the i-th of the command.
    fn add(&mut self, word: &[u8], i: usize) {
        match word {
            b"--tab" => self.layout.form = Form::Programs,
            b"--hours" => self.layout.hours = true,
            b"--help" => {
                if let Task::Play = self.task {
                    self.task = Task::Help;
                }
            }
            _ if is_option(word) => self.task = Task::Unknown(i),
            _ => self.files = self.files.saturating_add(1),
        }
    }
}

// The options of the command, wherever they stand; an argument is lent by its number.
pub fn find_options(rt: &impl Env) -> Options {
    let mut o = Options::default();
    for i in 1..usize::MAX {
        let mut word = [0; ARGUMENT_ROOM];
        let Some(word) = argument(rt, i, &mut word) else {
            break;
        };
        o.add(word, i);
    }
    o
}

// Which option is not known.
pub fn print_unknown(rt: &(impl Env + Print), i: usize) -> io::Result<()> {
    let mut word = [0; ARGUMENT_ROOM];
    rt.write_all(b"unknown option: ")?;
    if let Some(word) = argument(rt, i, &mut word) {
        rt.write_all(word)?;
    }
    rt.write_all(b"\n\n")
}

// What the command can be asked.
pub fn print_help(rt: &impl Print) -> io::Result<()> {
    rt.write_all(
        b"settle [--hours] [--tab] [FILE ..]\n\n\
        Plays histories of a delivery point, one call a line, and prints what each call answers: accepted,\n\
        or refused with its number; for each closed month a sheet that says how its volume was found.\n\
        Without a file, or for the file -, it plays standard input. Each file is a history of its own.\n\n    \
        --hours   also print the hours of each closed month, a row a day\n    \
        --tab     print records for programs: a word, then numbers, each behind a tab\n    \
        --help    print this\n\n\
        A history:\n\n    \
        open 2023-01 billing interval control none basis agreed power 100\n    \
        billing hours 31*(8*20 12*60 4*20)\n    \
        close week (8*0 3 11*1 4*0) (24*0)\n\n\
        docs/HISTORY-FILE.md has the grammar, samples/ a history for each lesson.\n",
    )
}
