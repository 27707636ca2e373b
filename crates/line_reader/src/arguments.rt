// What a token does where a call, an argument of it, or its end is expected.
ghost use Rattle.std.specs.Prelude.{◌≡◌};
ghost use Rattle.line_reader.specs.Modes.{behind_call, limit_for, begun, in_call, behind_value, value_taken, in_value, in_dash};
ghost use Rattle.line_reader.specs.Modes.{value_in, value_by, named_as, in_argument, volume_call, in_form, in_last};

use super::calls::Call;
use super::errors::Error;
use super::names::{Argument, call_of, expected, key_of, largest, word_value};
use super::{Line, Mode, Numbers};
use line_tokens::{Kind, Token, Word};

// What is expected behind the word of a call: the year of an opening, the source of a neighbour reading, the reason of a
// failure; hours or volume; the marks; nothing.
#[tactic(auto, unfolding(crate::specs::Modes::behind_call))]
fn behind_call(call: Call) -> Mode
    ensures { result ≡ behind_call call }
{
    match call {
        Call::Close => Mode::List,
        Call::BillingHours | Call::ControlHours => Mode::Form,
        Call::Admission | Call::Denial | Call::Permission => Mode::Last,
        Call::Neighbour => Mode::Value(Argument::Source),
        Call::Failure => Mode::Value(Argument::Reason),
        _ => Mode::Value(Argument::Year),
    }
}

// The largest number of a call's list.
#[tactic(auto, unfolding(crate::specs::Modes::limit_for))]
fn limit_for(call: Call) -> u64
    ensures { result ≡ limit_for call }
{
    match call {
        Call::Close => 255,
        _ => 4294967295,
    }
}

// What is expected behind a value: the - of a year, the volume of a neighbour reading, the next argument of an opening, or
// nothing.
#[tactic(auto, unfolding(crate::specs::Modes::behind_value))]
fn behind_value(key: Argument) -> Mode
    ensures { result ≡ behind_value key }
{
    match key {
        Argument::Year => Mode::Dash,
        Argument::Source => Mode::Value(Argument::Volume),
        Argument::Currents | Argument::Reason | Argument::Volume => Mode::Last,
        _ => Mode::Argument,
    }
}

// The call of a meter's volume, from that of its hours.
#[tactic(auto, unfolding(crate::specs::Modes::volume_call))]
fn volume_call(call: Option<Call>) -> Call
    ensures { result ≡ volume_call call }
{
    match call {
        Some(Call::BillingHours) => Call::BillingVolume,
        _ => Call::ControlVolume,
    }
}

// The value of the argument with a number, from the year's 0 to the volume's 14, as far as it is read; None for a number that no
// argument has.
#[tactic(auto, unfolding(crate::specs::Modes::value_by))]
pub fn value_of(line: Line, key: u32) -> Option<u64>
    ensures { result ≡ value_by key line }
{
    line.values.get(key as usize).copied().unwrap_or(None)
}

impl Line {
    // A call begins.
    #[tactic(auto, unfolding(crate::specs::Modes::begun))]
    fn begin(&mut self, call: Call)
        ensures { self.new ≡ begun call self.old }
    {
        let numbers = Numbers {
            limit: limit_for(call),
            ..self.numbers
        };
        self.set_call(call);
        self.set_numbers(behind_call(call), numbers);
    }

    #[tactic(auto, unfolding(crate::specs::Modes::in_call, crate::specs::Modes::called))]
    pub(crate) fn in_call(&mut self, t: Token)
        ensures { self.new ≡ in_call t.kind t.from self.old }
    {
        match t.kind {
            Kind::End => self.set_mode(Mode::Read),
            Kind::Word(Some(word)) => match call_of(word) {
                Some(call) => self.begin(call),
                None => self.fail(Error::Call, t.from),
            },
            _ => self.fail(Error::Call, t.from),
        }
    }

    // The value of an argument is there.
    #[tactic(auto, unfolding(crate::specs::Modes::value_taken))]
    fn take(&mut self, key: Argument, value: u64)
        ensures { self.new ≡ value_taken key value self.old }
    {
        self.set_value(key, value);
        self.set_mode(behind_value(key));
    }

    #[tactic(auto, unfolding(crate::specs::Modes::in_value, crate::specs::Modes::value_given))]
    pub(crate) fn in_value(&mut self, t: Token, key: Argument)
        ensures { self.new ≡ in_value key t.kind t.from self.old }
    {
        match t.kind {
            Kind::Number(value) => {
                if largest(key) < value {
                    return self.fail(Error::Large, t.from);
                }
                self.take(key, value)
            }
            Kind::Word(Some(word)) => match word_value(key, word) {
                Some(value) => self.take(key, value),
                None => self.fail(expected(key), t.from),
            },
            _ => self.fail(expected(key), t.from),
        }
    }

    #[tactic(auto, unfolding(crate::specs::Modes::in_dash))]
    pub(crate) fn in_dash(&mut self, t: Token)
        ensures { self.new ≡ in_dash t.kind t.from self.old }
    {
        match t.kind {
            Kind::Dash => self.set_mode(Mode::Value(Argument::Month)),
            _ => self.fail(Error::Dash, t.from),
        }
    }

    // The value of an argument as far as it is read.
    #[tactic(auto, unfolding(crate::specs::Modes::value_in))]
    pub fn value_of(self, key: Argument) -> Option<u64>
        ensures { result ≡ value_in key self }
    {
        self.values[key.index()]
    }

    // The word of an argument, with its place. The list of currents has no number; 0 says that it was named, since a second naming
    // is asked of the values.
    #[tactic(auto, unfolding(crate::specs::Modes::named_as, crate::specs::Modes::asked_for))]
    pub(crate) fn named(&mut self, key: Option<Argument>, place: usize)
        ensures { self.new ≡ named_as key place self.old }
    {
        let Some(key) = key else {
            return self.fail(Error::Argument, place);
        };
        if self.value_of(key).is_some() {
            return self.fail(Error::Twice, place);
        }
        match key {
            Argument::Currents => {
                self.set_value(key, 0);
                self.set_mode(Mode::List);
            }
            _ => self.set_mode(Mode::Value(key)),
        }
    }

    #[tactic(auto, unfolding(crate::specs::Modes::in_argument))]
    pub(crate) fn in_argument(&mut self, t: Token)
        ensures { self.new ≡ in_argument t.kind t.from self.old }
    {
        match t.kind {
            Kind::End => self.set_mode(Mode::Read),
            Kind::Word(word) => self.named(word.and_then(key_of), t.from),
            _ => self.fail(Error::Argument, t.from),
        }
    }

    #[tactic(auto, unfolding(crate::specs::Modes::in_form))]
    pub(crate) fn in_form(&mut self, t: Token)
        ensures { self.new ≡ in_form t.kind t.from self.old }
    {
        match t.kind {
            Kind::Word(Some(Word::Hours)) => self.set_mode(Mode::List),
            Kind::Word(Some(Word::Volume)) => {
                self.set_call(volume_call(self.call));
                self.set_mode(Mode::Value(Argument::Volume));
            }
            _ => self.fail(Error::Form, t.from),
        }
    }

    #[tactic(auto, unfolding(crate::specs::Modes::in_last))]
    pub(crate) fn in_last(&mut self, t: Token)
        ensures { self.new ≡ in_last t.kind t.from self.old }
    {
        match t.kind {
            Kind::End => self.set_mode(Mode::Read),
            _ => self.fail(Error::Last, t.from),
        }
    }
}
