// One line of a history: read, its call made on the point, its answer written.
#![tactic(auto)]

ghost use Rattle.std.specs.Prelude.{◌≡◌, Some};
ghost use Rattle.model.specs.Model.{state};
ghost use Rattle.line_player.specs.Played.{other_call_leaves, call_leaves, read_leaves, line_leaves};

use calendar::open_hours;
use line_calls::week::first_weekday;
use line_calls::{lend_marks, make_call, open_by};
use line_reader::{Call, Line, read_line};
use model::Answer;
use reasons::reasons_of;
use record::Record;
use rules::Reasons;
use sheets::answers::{Answers, Counts};
use sheets::months::Month;

// What plays histories: the record of the point, the counts of all files, the number of the line, and the answers that are
// not written out.
#[derive(Drop)]
pub struct Player<const N: usize> {
    pub record: Record,
    pub counts: Counts,
    pub line: u64,
    pub answers: Answers<N>,
}

// Why the open month will be closed as it is, where the marks of a list close it.
fn why(list: &[u32], r: Record, store: &[u32]) -> Option<Reasons> {
    let mut hours = [0; 744];
    let mut marks = [0; 4096];
    reasons_of(r, store, lend_marks(list, &mut marks), &mut hours)
}

// The answer of a call that is no opening and no closing.
fn other_answer(read: Line, list: &[u32], r: Record, store: &mut [u32]) -> Answer
    ensures { state result.after store.new ≡ other_call_leaves read list.now (state r store.old) }
{
    let mut hours = [0; 744];
    make_call(read, list, r, store, &mut hours)
}

// The answer of a call that is no closing. The calls are a closed set, of which a match names the one that is apart; the list
// stands beside its line, in memory of a fixed size, since there is no heap.
#[tactic(auto, unfolding(crate::specs::Played::call_leaves, line_reader::specs::Modes::is_opening))]
fn answer_of(read: Line, list: &[u32], r: Record, store: &mut [u32]) -> Answer
    ensures { state result.after store.new ≡ call_leaves read list.now (state r store.old) }
{
    match read.call {
        Some(Call::Open) => open_by(read, list, store),
        _ => other_answer(read, list, r, store),
    }
}

impl<const N: usize> Player<N> {
    // A line that is no call, with the column and the number of its error, which is any number.
    pub fn bad_line(&mut self, column: u64, error: u32)
        ensures point { self.new.record ≡ self.old.record }
        ensures layout { self.new.answers.layout ≡ self.old.answers.layout }
    {
        self.answers.put_bad_line(self.line, column, error);
        self.counts.errors = self.counts.errors.saturating_add(1);
    }

    // A call is answered: it is counted, and the point is the one behind it.
    fn answered(&mut self, call: Call, a: Answer)
        ensures point { self.new.record ≡ a.after }
        ensures layout { self.new.answers.layout ≡ self.old.answers.layout }
    {
        let open = self.record.date;
        self.answers
            .put_call(self.line, call, a.refusal, a.figures.wrong_day, open);
        self.record = a.after;
        if a.refusal == 0 {
            self.counts.accepted = self.counts.accepted.saturating_add(1);
        } else {
            self.counts.refused = self.counts.refused.saturating_add(1);
        }
    }

    // A closing, with the sheet of the month where it is accepted.
    fn play_closing(&mut self, read: Line, list: &[u32], store: &mut [u32])
        ensures point { state self.new.record store.new ≡ other_call_leaves read list.now (state self.old.record store.old) }
        ensures layout { self.new.answers.layout ≡ self.old.answers.layout }
    {
        let date = self.record.date;
        let why = why(list, self.record, store);
        let mut hours = [0; 744];
        let a = make_call(read, list, self.record, store, &mut hours);
        self.answered(Call::Close, a);
        if let Some(why) = why {
            let month = Month {
                line: self.line,
                date,
                hours: open_hours(date),
                figures: a.figures,
                why,
                total: a.after.total,
            };
            self.answers.put_month(month, &hours);
        }
    }

    // The call of a line that was read, with its list. The match names the one call of the closed set that writes a sheet.
    #[tactic(auto, unfolding(crate::specs::Played::call_leaves, line_reader::specs::Modes::is_opening))]
    fn play_call(&mut self, read: Line, call: Call, list: &[u32], store: &mut [u32])
        requires { read.call ≡ Some call }
        ensures point { state self.new.record store.new ≡ call_leaves read list.now (state self.old.record store.old) }
        ensures layout { self.new.answers.layout ≡ self.old.answers.layout }
    {
        match call {
            Call::Close => self.play_closing(read, list, store),
            _ => {
                let a = answer_of(read, list, self.record, store);
                self.answered(call, a);
            }
        }
    }

    // What a line that was read does: its error is told, or its call is made.
    #[tactic(auto, unfolding(crate::specs::Played::read_leaves))]
    fn play_read(&mut self, read: Line, numbers: &[u32], store: &mut [u32])
        ensures point { state self.new.record store.new ≡ read_leaves read numbers.now (state self.old.record store.old) }
        ensures layout { self.new.answers.layout ≡ self.old.answers.layout }
    {
        if let Some(fault) = read.fault() {
            let column = fault.place.min(999999) as u64 + 1;
            return self.bad_line(column, fault.error.number());
        }
        if let Some(call) = read.call {
            let n = (read.numbers.count as usize).min(numbers.len());
            self.play_call(read, call, &numbers[..n], store);
        }
    }

    // Plays a line.
    #[tactic(auto, unfolding(crate::specs::Played::line_leaves))]
    pub fn play_line(&mut self, line: &[u8], store: &mut [u32])
        ensures point { state self.new.record store.new ≡ line_leaves line.now (state self.old.record store.old) }
        ensures layout { self.new.answers.layout ≡ self.old.answers.layout }
    {
        let date = self.record.date;
        let mut numbers = [0; 4096];
        let mut group = [0; 4096];
        let read = read_line(
            line,
            open_hours(date),
            first_weekday(date),
            &mut numbers,
            &mut group,
        );
        self.play_read(read, &numbers, store);
    }
}
