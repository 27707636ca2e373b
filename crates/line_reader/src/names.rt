// What the words of a history file stand for: calls, arguments and kinds.
ghost use Rattle.std.specs.Prelude.{◌≡◌, ◌<◌};
ghost use Rattle.line_reader.specs.Codes.{index_of};
ghost use Rattle.line_reader.specs.Names.{call_of, key_of, meter_word, basis_word, source_word, reason_word, word_value, expected_for, largest_for};

use super::calls::Call;
use super::errors::Error;
use line_tokens::Word;

// The arguments of calls, in the order of their places among the values.
#[derive(Clone, Copy, Debug, PartialEq, Eq)]
pub enum Argument {
    Year,
    Month,
    Billing,
    Control,
    Basis,
    Power,
    Place,
    Amperes,
    Volts,
    Cosine,
    Phases,
    Currents,
    Source,
    Reason,
    Volume,
}

impl Argument {
    // Its place among the values: a number, since it is the index of an array.
    #[tactic(auto, unfolding(crate::specs::Codes::index_of))]
    pub(crate) fn index(self) -> usize
        ensures place { result ≡ index_of self }
        ensures below { result < 15 }
    {
        self as usize
    }
}

// The call that a word starts; the call of a meter's hours stands for both of its readings.
#[tactic(auto, unfolding(crate::specs::Names::call_of))]
pub(crate) fn call_of(word: Word) -> Option<Call>
    ensures { result ≡ call_of word }
{
    match word {
        Word::Open => Some(Call::Open),
        Word::Billing => Some(Call::BillingHours),
        Word::Control => Some(Call::ControlHours),
        Word::Neighbour => Some(Call::Neighbour),
        Word::Failure => Some(Call::Failure),
        Word::Admission => Some(Call::Admission),
        Word::Denial => Some(Call::Denial),
        Word::Permission => Some(Call::Permission),
        Word::Close => Some(Call::Close),
        _ => None,
    }
}

// The argument that a word of an opening names.
#[tactic(auto, unfolding(crate::specs::Names::key_of))]
pub(crate) fn key_of(word: Word) -> Option<Argument>
    ensures { result ≡ key_of word }
{
    match word {
        Word::Billing => Some(Argument::Billing),
        Word::Control => Some(Argument::Control),
        Word::Basis => Some(Argument::Basis),
        Word::Power => Some(Argument::Power),
        Word::Place => Some(Argument::Place),
        Word::Amperes => Some(Argument::Amperes),
        Word::Volts => Some(Argument::Volts),
        Word::Cosine => Some(Argument::Cosine),
        Word::Phases => Some(Argument::Phases),
        Word::Currents => Some(Argument::Currents),
        _ => None,
    }
}

// The kind of a meter that a word stands for.
// A number, here and below, since the grammar lets any number stand for the word: refusals 11, 12, 20 and 31 judge it.
#[tactic(auto, unfolding(crate::specs::Names::meter_word))]
fn meter_word(word: Word) -> Option<u64>
    ensures { result ≡ meter_word word }
{
    match word {
        Word::None => Some(0),
        Word::Interval => Some(1),
        Word::Integral => Some(2),
        _ => None,
    }
}

// The basis.
#[tactic(auto, unfolding(crate::specs::Names::basis_word))]
fn basis_word(word: Word) -> Option<u64>
    ensures { result ≡ basis_word word }
{
    match word {
        Word::Agreed => Some(1),
        Word::Shared => Some(2),
        Word::Cable => Some(3),
        _ => None,
    }
}

// The source of a neighbour reading.
#[tactic(auto, unfolding(crate::specs::Names::source_word))]
fn source_word(word: Word) -> Option<u64>
    ensures { result ≡ source_word word }
{
    match word {
        Word::Billing => Some(1),
        Word::Control => Some(2),
        _ => None,
    }
}

// The reason of a failure.
#[tactic(auto, unfolding(crate::specs::Names::reason_word))]
fn reason_word(word: Word) -> Option<u64>
    ensures { result ≡ reason_word word }
{
    match word {
        Word::Fault => Some(1),
        Word::Loss => Some(2),
        Word::Verification => Some(3),
        Word::Removal => Some(4),
        _ => None,
    }
}

// The number that a word stands for as the value of an argument.
#[tactic(auto, unfolding(crate::specs::Names::word_value))]
pub(crate) fn word_value(key: Argument, word: Word) -> Option<u64>
    ensures { result ≡ word_value key word }
{
    match key {
        Argument::Billing | Argument::Control => meter_word(word),
        Argument::Basis => basis_word(word),
        Argument::Source => source_word(word),
        Argument::Reason => reason_word(word),
        _ => None,
    }
}

// The error of an argument whose value is missing.
#[tactic(auto, unfolding(crate::specs::Names::expected_for))]
pub(crate) fn expected(key: Argument) -> Error
    ensures { result ≡ expected_for key }
{
    match key {
        Argument::Billing | Argument::Control => Error::Meter,
        Argument::Basis => Error::Basis,
        Argument::Source => Error::Source,
        Argument::Reason => Error::Reason,
        _ => Error::Number,
    }
}

// The largest number that an argument takes.
#[tactic(auto, unfolding(crate::specs::Names::largest_for))]
pub(crate) fn largest(key: Argument) -> u64
    ensures { result ≡ largest_for key }
{
    match key {
        Argument::Volume => 999999999999999999,
        _ => 4294967295,
    }
}
