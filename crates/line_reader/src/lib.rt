// One line of a history file (docs/HISTORY-FILE.md): from its bytes to a call and its arguments, or to an error with its
// place. A line is read token by token; each token takes the line from one mode, which says what is expected, to the next.
#![tactic(auto)]

ghost use Rattle.std.specs.Prelude.{◌≡◌};
ghost use Rattle.line_reader.specs.Lines.{is_finished, fault_of, fresh_line, after_token, next_token, line_read, read_token, read_line};

mod arguments;
mod buffers;
mod calls;
mod changes;
mod errors;
mod lists;
mod names;

pub use arguments::value_of;
use buffers::write;
pub use calls::Call;
pub use errors::{Error, Fault, UnknownError};
use line_tokens::{Kind, Token, token_at};
pub use names::Argument;

// What a line expects next: a call, the value of an argument, the - of a month, an argument, `hours` or `volume`, a part of
// a list, an item between parentheses, what a count repeats, the parenthesis of a day, the end; and what ends it: a call or
// nothing, or an error.
#[derive(Clone, Copy, Debug, PartialEq, Eq)]
pub enum Mode {
    Call,
    Value(Argument),
    Dash,
    Argument,
    Form,
    List,
    Group,
    Counted,
    Day,
    Last,
    Read,
    Failed(Fault),
}

// The depth of parentheses: outside them, between those of a repetition, of the first day of a week and of its second.
#[derive(Clone, Copy, Debug, PartialEq, Eq)]
pub enum Depth {
    Outside,
    Repetition,
    FirstDay,
    SecondDay,
}

// What a token adds to the list: a number so many times, the same between parentheses, the numbers between parentheses so
// many times, the days of a month from the two days of a week.
#[derive(Clone, Copy, Debug, PartialEq, Eq)]
pub enum Action {
    Number(u32),
    InGroup(u32),
    Group,
    Week,
}

// The list of numbers that a line brings, as far as it is read: the largest number that it takes; how many numbers it has,
// and how many stand between the parentheses that are open; the count that was read last, and that of the parentheses;
// their depth; whether a part is still missing; what the token adds.
// The numbers stand in two lists of the caller beside the line: fixed memory, no heap, and the line stays a small value.
// 0 is a count like any other, and `times` and `repeat` are read only behind a count, which sets them: an Option would be no
// plainer.
#[derive(Clone, Copy, Debug, PartialEq, Eq)]
pub struct Numbers {
    pub limit: u64,
    pub count: u32,
    pub inner: u32,
    pub times: u32,
    pub repeat: u32,
    pub depth: Depth,
    pub fresh: bool,
    pub action: Option<Action>,
}

// A line as far as it is read: what is expected next, and where; the call; the values of the arguments, and the list.
#[derive(Clone, Copy, Debug, PartialEq, Eq)]
pub struct Line {
    pub mode: Mode,
    pub at: usize,
    pub call: Option<Call>,
    pub values: [Option<u64>; 15],
    pub numbers: Numbers,
}

impl Mode {
    // Whether the line has ended.
    #[tactic(auto, unfolding(crate::specs::Lines::is_finished))]
    fn is_finished(self) -> bool
        ensures { result ≡ is_finished self }
    {
        matches!(self, Mode::Read | Mode::Failed(_))
    }
}

// A line of which nothing is read.
pub fn fresh_line() -> Line
    ensures { result ≡ fresh_line }
{
    let numbers = Numbers {
        limit: 4294967295,
        count: 0,
        inner: 0,
        times: 0,
        repeat: 0,
        depth: Depth::Outside,
        fresh: true,
        action: None,
    };
    Line {
        mode: Mode::Call,
        at: 0,
        call: None,
        values: [None; 15],
        numbers,
    }
}

impl Line {
    // The error that the line ended with, if it did.
    #[tactic(auto, unfolding(crate::specs::Lines::fault_of, crate::specs::Lines::fault_in))]
    pub fn fault(self) -> Option<Fault>
        ensures { result ≡ fault_of self }
    {
        match self.mode {
            Mode::Failed(fault) => Some(fault),
            _ => None,
        }
    }

    // What a token does to a line that is not finished. `hours` is T of the open month.
    #[tactic(auto, unfolding(crate::specs::Lines::after_token, crate::specs::Lines::in_mode))]
    fn after_token(&mut self, t: Token, hours: u32)
        ensures { self.new ≡ after_token hours t.kind t.from self.old }
    {
        match t.kind {
            Kind::Foreign => self.fail(Error::Foreign, t.from),
            Kind::Long => self.fail(Error::Large, t.from),
            // A `match`, since the modes are closed and hold what is read next: each names the function that follows.
            _ => match self.mode {
                Mode::Call => self.in_call(t),
                Mode::Value(key) => self.in_value(t, key),
                Mode::Dash => self.in_dash(t),
                Mode::Argument => self.in_argument(t),
                Mode::Form => self.in_form(t),
                Mode::List => self.in_list(t),
                Mode::Group => self.in_group(t, hours),
                Mode::Counted => self.in_counted(t),
                Mode::Day => self.in_day(t),
                _ => self.in_last(t),
            },
        }
    }

    // The line behind its next token, with what that adds to the list still to be written.
    #[tactic(auto, unfolding(crate::specs::Lines::next_token))]
    fn next_token(&mut self, line: &[u8], hours: u32)
        ensures { self.new ≡ next_token hours line.now self.old }
    {
        self.numbers.action = None;
        let t = token_at(line, self.at);
        self.after_token(t, hours);
        self.at = t.to;
    }
}

// One token more, and what it adds to the list. A line that is finished stays.
#[tactic(auto, unfolding(crate::specs::Lines::read_token))]
fn read_token(
    line: &[u8],
    s: &mut Line,
    hours: u32,
    first: u32,
    numbers: &mut [u32],
    group: &mut [u32],
)
    ensures { line_read s.new numbers.new group.new
        ≡ read_token hours first line.now (line_read s.old numbers.old group.old) }
{
    if s.mode.is_finished() {
        return;
    }
    let before = s.numbers;
    s.next_token(line, hours);
    write(before, s.numbers, first, numbers, group);
}

// Reads a line: the call and its arguments, or the error, and its list into `numbers`. `hours` is T of the open month and
// `first` the day of the week of its first day, Monday 0. `group` is room for numbers between parentheses.
// Both lists are lent beside the line: they are the caller's fixed memory, and a list in the line would be copied with it. T goes
// on without the weekday, which only the writing asks for.
#[tactic(auto, using(crate::proofs::Finished::tokens_done))]
pub fn read_line(
    line: &[u8],
    hours: u32,
    first: u32,
    numbers: &mut [u32],
    group: &mut [u32],
) -> Line
    ensures { line_read result numbers.new group.new ≡ read_line hours first line.now numbers.old group.old }
{
    let mut s = fresh_line();
    // A `while`, since it counts nothing: how many tokens a line has is known at its end only.
    while !s.mode.is_finished() {
        read_token(line, &mut s, hours, first, numbers, group);
    }
    s
}
