// The files of a command, played one after the other.
use super::input::{History, Step};
use super::options::{ARGUMENT_ROOM, Options, argument, is_option};
use line_player::Player;
use record::zero_record;
use sheets::answers::{Answers, Counts, Form};
use std::env::Env;
use std::fs::Files;
use std::io::{Input, Read};
use std::{fs, io, str};
use text::Buffer;

// Room for answers that are not yet written out.
const ANSWERS_ROOM: usize = 65536;

// Writes out answers.
pub fn write_out<const N: usize>(rt: &impl Print, answers: &mut Buffer<N>) -> io::Result<()> {
    rt.write_all(answers.as_slice())?;
    answers.clear();
    Ok(())
}

// Writes out answers where they take more than half of their room, which is more than any line is answered with.
pub fn write_half<const N: usize>(rt: &impl Print, answers: &mut Buffer<N>) -> io::Result<()> {
    if answers.len() <= N / 2 {
        return Ok(());
    }
    write_out(rt, answers)
}

// A command that plays: its options, how many files it has begun, and what plays them.
#[derive(Drop)]
pub struct Command {
    options: Options,
    file: u64,
    player: Player<ANSWERS_ROOM>,
}

impl Command {
    // Nothing is played.
    pub fn new(options: Options) -> Command {
        Command {
            options,
            file: 0,
            player: Player {
                record: zero_record(),
                counts: Counts::default(),
                line: 0,
                answers: Answers {
                    layout: options.layout,
                    text: Buffer::new(),
                },
            },
        }
    }

    // A file begins: its history has no point open, and its lines are counted anew. Its name stands above its answers where
    // there are several; for programs there is a record of it.
    fn start_file(&mut self, name: &[u8]) {
        self.file = self.file.saturating_add(1);
        self.player.record = zero_record();
        self.player.line = 0;
        let answers = &mut self.player.answers;
        match answers.layout.form {
            Form::Programs => answers.put_record::<u64>(b"file", self.file, &[]),
            Form::People if self.options.files < 2 => (),
            Form::People => {
                answers.text.put(name);
                answers.text.put(b":\n");
            }
        }
    }

    // A file that cannot be read: for people by its name, for programs an error without a line. The record has numbers alone, and 0
    // is the line that there is not (docs/HISTORY-FILE.md).
    fn no_file(&mut self, name: &[u8]) {
        let counts = &mut self.player.counts;
        counts.errors = counts.errors.saturating_add(1);
        let answers = &mut self.player.answers;
        match answers.layout.form {
            Form::Programs => answers.put_bad_line(0, 0, 0),
            Form::People => {
                answers.text.put(name);
                answers.text.put(b": cannot be read\n");
            }
        }
    }

    // Plays a file that is open, as a history of its own.
    fn play_open<R: Read>(&mut self, rt: &impl Print, name: &[u8], file: &mut R) -> io::Result<()> {
        let step = History::new().play(rt, &mut self.player, file)?;
        if step == Step::Failed {
            self.no_file(name);
        }
        Ok(())
    }

    // Plays the file of a name, or standard input for the name -.
    fn play_name(&mut self, rt: &(impl Files + Input + Print), name: &[u8]) -> io::Result<()> {
        self.start_file(name);
        if let b"-" = name {
            return self.play_open(rt, name, &mut rt.reader());
        }
        match open_name(rt, name) {
            Some(mut file) => self.play_open(rt, name, &mut file),
            None => {
                self.no_file(name);
                Ok(())
            }
        }
    }

    // Plays argument i of the command where it is a file, and says whether there is such an argument.
    fn play_argument(
        &mut self,
        rt: &(impl Env + Files + Input + Print),
        i: usize,
    ) -> io::Result<bool> {
        let mut name = [0; ARGUMENT_ROOM];
        let Some(name) = argument(rt, i, &mut name) else {
            return Ok(false);
        };
        if !is_option(name) {
            self.play_name(rt, name)?;
            write_half(rt, &mut self.player.answers.text)?;
        }
        Ok(true)
    }

    // Plays the files of the command, one after the other. An argument is lent by its number, and no number says how many there
    // are.
    fn play_files(&mut self, rt: &(impl Env + Files + Input + Print)) -> io::Result<()> {
        for i in 1..usize::MAX {
            if !self.play_argument(rt, i)? {
                return Ok(());
            }
        }
        Ok(())
    }

    // Plays the files of the command, or standard input where it names none, sums up, and writes what is left.
    pub fn play(&mut self, rt: &(impl Env + Files + Input + Print)) -> io::Result<()> {
        if self.options.files == 0 {
            self.play_name(rt, b"-")?;
        } else {
            self.play_files(rt)?;
        }
        self.player.answers.put_end(self.player.counts);
        write_out(rt, &mut self.player.answers.text)
    }
}

// Opens the file of a name, where it can be read. A name that is no UTF-8 text opens nothing.
fn open_name<R: Files>(rt: &R, name: &[u8]) -> Option<R::File> {
    let text = str::from_utf8(name).ok()?;
    fs::open(rt, text).ok()
}
