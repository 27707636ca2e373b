// The bytes of a file, cut into lines.
use super::files::{write_half, write_out};
use line_player::Player;
use line_reader::Error;
use std::io;
use std::io::Read;
use text::Buffer;

// How many bytes a line has at most, and how many are read at once.
const LINE_ROOM: usize = 16384;

const CHUNK: usize = 65536;

// A file that is played: the bytes of its line, whether there were too many, and the store of its point. A line with too many
// bytes is an error and no shorter line, so that neither the flag nor the bytes are the other's value. The player goes from file
// to file, so it is the command's, and is lent to each function here.
#[derive(Drop)]
pub struct History {
    line: Buffer<LINE_ROOM>,
    long: bool,
    store: [u32; 10416],
}

// What one read of a file gave: some bytes, its end, or an error.
#[derive(Clone, Copy, PartialEq, Eq)]
pub enum Step {
    More,
    End,
    Failed,
}

impl History {
    // Nothing is read.
    pub fn new() -> History {
        History {
            line: Buffer::new(),
            long: false,
            store: [0; 10416],
        }
    }

    // Adds bytes to the line; one with too many is too long as a whole.
    fn add(&mut self, bytes: &[u8]) {
        if !self.line.has_room(bytes) {
            self.long = true;
        }
        self.line.put(bytes);
    }

    // The line is whole: it is played, and the next begins.
    fn end_line<const N: usize>(&mut self, player: &mut Player<N>) {
        player.line = player.line.saturating_add(1);
        if self.long {
            player.bad_line(LINE_ROOM as u64 + 1, Error::LongLine.number());
        } else {
            player.play_line(self.line.as_slice(), &mut self.store);
        }
        self.line.clear();
        self.long = false;
    }

    // Plays the lines that end in some bytes, and keeps what is left of them.
    fn play_bytes<const N: usize>(
        &mut self,
        rt: &impl Print,
        player: &mut Player<N>,
        bytes: &[u8],
    ) -> io::Result<()> {
        for piece in bytes.split_inclusive(|b| *b == b'\n') {
            if let [line @ .., b'\n'] = piece {
                self.add(line);
                self.end_line(player);
                write_half(rt, &mut player.answers.text)?;
            } else {
                self.add(piece);
            }
        }
        Ok(())
    }

    // Reads once, plays what came and writes the answers, so that a line that is typed is answered at once.
    fn play_some<const N: usize, R: Read>(
        &mut self,
        rt: &impl Print,
        player: &mut Player<N>,
        file: &mut R,
    ) -> io::Result<Step> {
        let mut chunk = [0; CHUNK];
        let step = match file.read(&mut chunk) {
            Ok(0) => Step::End,
            Ok(n) => {
                self.play_bytes(rt, player, &chunk[..n])?;
                Step::More
            }
            Err(_) => Step::Failed,
        };
        write_out(rt, &mut player.answers.text)?;
        Ok(step)
    }

    // Plays a file that is open to its end, and says how it ended. Nothing says that a file ends, so it is read at most as
    // often as no file needs.
    fn play_input<const N: usize, R: Read>(
        &mut self,
        rt: &impl Print,
        player: &mut Player<N>,
        file: &mut R,
    ) -> io::Result<Step> {
        for _ in 0..u64::MAX {
            let step = self.play_some(rt, player, file)?;
            if step != Step::More {
                return Ok(step);
            }
        }
        Ok(Step::End)
    }

    // The same, with the last line, where no line feed ends it.
    pub fn play<const N: usize, R: Read>(
        &mut self,
        rt: &impl Print,
        player: &mut Player<N>,
        file: &mut R,
    ) -> io::Result<Step> {
        let step = self.play_input(rt, player, file)?;
        if self.long || self.line.len() != 0 {
            self.end_line(player);
            write_half(rt, &mut player.answers.text)?;
        }
        Ok(step)
    }
}
