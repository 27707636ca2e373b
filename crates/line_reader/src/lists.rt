// What a token does in a list: outside parentheses, between them, behind a count and in a week.
ghost use Rattle.std.specs.Prelude.{◌≡◌, ◌+◌, ◌*◌, ◌%◌, min};
ghost use Rattle.line_reader.specs.Modes.{is_inside, added_to, behind_item, adding, counting, word_in, in_list};
ghost use Rattle.line_reader.specs.Modes.{closed_numbers, repeated, group_closed, in_group, opened_numbers, in_counted, next_day, in_day};

use super::calls::Call;
use super::errors::Error;
use super::names::key_of;
use super::{Action, Depth, Line, Mode, Numbers};
use line_tokens::{Kind, Token, Word};

// A number of at most 4,096, in 32 bits.
fn short(x: u64) -> u32
    ensures { result ≡ min x 4096 }
{
    x.min(4096) as u32
}

// The low 32 bits of a number, which is all of it, since no list takes more. Here and in `short` it fits, as the contract shows;
// `try_from` would bring a case that there is not.
fn low(x: u64) -> u32
    ensures { result ≡ x % 4294967296 }
{
    (x % 4294967296) as u32
}

impl Depth {
    // Whether parentheses are open.
    #[tactic(auto, unfolding(crate::specs::Modes::is_inside))]
    fn is_inside(self) -> bool
        ensures { result ≡ is_inside self }
    {
        self != Depth::Outside
    }

    // What is expected behind a number.
    #[tactic(auto, unfolding(crate::specs::Modes::behind_item))]
    fn behind_item(self) -> Mode
        ensures { result ≡ behind_item self }
    {
        match self {
            Depth::Outside => Mode::List,
            _ => Mode::Group,
        }
    }

    // The day of a week whose parenthesis is next.
    #[tactic(auto, unfolding(crate::specs::Modes::next_day))]
    fn next_day(self) -> Depth
        ensures { result ≡ next_day self }
    {
        match self {
            Depth::FirstDay => Depth::SecondDay,
            _ => Depth::FirstDay,
        }
    }
}

impl Numbers {
    // The list with a number added so many times: between parentheses where they are open.
    #[tactic(auto, unfolding(crate::specs::Modes::added_to, crate::specs::Modes::is_inside))]
    fn added(self, times: u32, value: u64) -> Numbers
        ensures { result ≡ added_to self times value }
    {
        let value = low(value);
        if self.depth.is_inside() {
            return Numbers {
                inner: short(u64::from(self.inner) + u64::from(times)),
                fresh: false,
                action: Some(Action::InGroup(value)),
                ..self
            };
        }
        Numbers {
            count: short(u64::from(self.count) + u64::from(times)),
            fresh: false,
            action: Some(Action::Number(value)),
            ..self
        }
    }

    // How many numbers the list has with those between parentheses and so many more.
    fn together(self, times: u32) -> u64
        ensures { result ≡ self.count + self.inner + times }
    {
        u64::from(self.count) + u64::from(self.inner) + u64::from(times)
    }

    // How many it has where those between parentheses are repeated.
    fn repeated(self) -> u64
        ensures { result ≡ self.count + self.repeat * self.inner }
    {
        u64::from(self.count) + u64::from(self.repeat) * u64::from(self.inner)
    }

    // The list behind closed parentheses.
    #[tactic(auto, unfolding(crate::specs::Modes::closed_numbers))]
    fn closed(self, count: u64, action: Action) -> Numbers
        ensures { result ≡ closed_numbers self count action }
    {
        Numbers {
            count: short(count),
            inner: 0,
            depth: Depth::Outside,
            fresh: false,
            action: Some(action),
            ..self
        }
    }

    // The list with parentheses opened.
    #[tactic(auto, unfolding(crate::specs::Modes::opened_numbers))]
    fn opened(self, depth: Depth) -> Numbers
        ensures { result ≡ opened_numbers self depth }
    {
        Numbers {
            repeat: self.times,
            depth,
            fresh: true,
            ..self
        }
    }
}

impl Line {
    // A number of the list, so many times.
    #[tactic(auto, unfolding(crate::specs::Modes::adding))]
    fn add_number(&mut self, times: u32, value: u64, place: usize)
        ensures { self.new ≡ adding times value place self.old }
    {
        let n = self.numbers;
        if n.limit < value {
            return self.fail(Error::Large, place);
        }
        if 4096 < n.together(times) {
            return self.fail(Error::ListLength, place);
        }
        self.set_numbers(n.depth.behind_item(), n.added(times, value))
    }

    // A count: what it repeats is expected.
    #[tactic(auto, unfolding(crate::specs::Modes::counting))]
    fn add_count(&mut self, value: u64, place: usize)
        ensures { self.new ≡ counting value place self.old }
    {
        if 4096 < value {
            return self.fail(Error::ListLength, place);
        }
        let numbers = Numbers {
            times: short(value),
            ..self.numbers
        };
        self.set_numbers(Mode::Counted, numbers)
    }

    // A word in a list: the next argument of an opening, the working-day pattern, or the empty list.
    #[tactic(auto, unfolding(crate::specs::Modes::word_in, crate::specs::Modes::is_opening, crate::specs::Modes::list_word))]
    fn word_in_list(&mut self, word: Option<Word>, place: usize)
        ensures { self.new ≡ word_in word place self.old }
    {
        let fresh = self.numbers.fresh;
        match (self.call, word) {
            (Some(Call::Open), _) if !fresh => self.named(word.and_then(key_of), place),
            (Some(Call::Open), _) => self.fail(Error::Part, place),
            (_, Some(Word::Week)) => self.set_mode(Mode::Day),
            (_, Some(Word::None)) if fresh => self.set_mode(Mode::Last),
            _ => self.fail(Error::Part, place),
        }
    }

    #[tactic(auto, unfolding(crate::specs::Modes::in_list))]
    pub(crate) fn in_list(&mut self, t: Token)
        ensures { self.new ≡ in_list t.kind t.from self.old }
    {
        match t.kind {
            Kind::Number(value) => self.add_number(1, value, t.from),
            Kind::Count(value) => self.add_count(value, t.from),
            Kind::Word(word) => self.word_in_list(word, t.from),
            Kind::End if !self.numbers.fresh => self.set_mode(Mode::Read),
            _ => self.fail(Error::Part, t.from),
        }
    }

    // The parentheses are closed, and the list has so many numbers.
    #[tactic(auto, unfolding(crate::specs::Modes::repeated))]
    fn repeat(&mut self, total: u64, action: Action, place: usize)
        ensures { self.new ≡ repeated total action place self.old }
    {
        if 4096 < total {
            return self.fail(Error::ListLength, place);
        }
        self.set_numbers(Mode::List, self.numbers.closed(total, action))
    }

    // The parentheses close: those of a repetition, or of the first or second day of a week.
    #[tactic(auto, unfolding(crate::specs::Modes::group_closed, crate::specs::Modes::closed_at))]
    fn close_group(&mut self, place: usize, hours: u32)
        ensures { self.new ≡ group_closed hours place self.old }
    {
        let n = self.numbers;
        match n.depth {
            Depth::FirstDay if n.inner == 24 => self.set_mode(Mode::Day),
            Depth::SecondDay if n.inner == 48 => self.repeat(
                u64::from(n.count) + u64::from(hours),
                Action::Week,
                place,
            ),
            Depth::FirstDay | Depth::SecondDay => self.fail(Error::DayLength, place),
            _ => self.repeat(n.repeated(), Action::Group, place),
        }
    }

    #[tactic(auto, unfolding(crate::specs::Modes::in_group))]
    pub(crate) fn in_group(&mut self, t: Token, hours: u32)
        ensures { self.new ≡ in_group hours t.kind t.from self.old }
    {
        match t.kind {
            Kind::Number(value) => self.add_number(1, value, t.from),
            Kind::Count(value) => self.add_count(value, t.from),
            Kind::Right if !self.numbers.fresh => self.close_group(t.from, hours),
            _ => self.fail(Error::Item, t.from),
        }
    }

    #[tactic(auto, unfolding(crate::specs::Modes::in_counted))]
    pub(crate) fn in_counted(&mut self, t: Token)
        ensures { self.new ≡ in_counted t.kind t.from self.old }
    {
        let n = self.numbers;
        match t.kind {
            Kind::Number(value) => self.add_number(n.times, value, t.from),
            Kind::Left if !n.depth.is_inside() => {
                self.set_numbers(Mode::Group, n.opened(Depth::Repetition))
            }
            _ => self.fail(Error::Counted, t.from),
        }
    }

    #[tactic(auto, unfolding(crate::specs::Modes::in_day))]
    pub(crate) fn in_day(&mut self, t: Token)
        ensures { self.new ≡ in_day t.kind t.from self.old }
    {
        let n = self.numbers;
        match t.kind {
            Kind::Left => self.set_numbers(Mode::Group, n.opened(n.depth.next_day())),
            _ => self.fail(Error::Day, t.from),
        }
    }
}
