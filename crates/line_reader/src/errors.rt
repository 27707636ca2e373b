// The errors of a line (docs/HISTORY-FILE.md, 'Errors').
ghost use Rattle.std.specs.Prelude.{◌≡◌};
ghost use Rattle.line_reader.specs.Codes.{error_number, Decodes};

use std::fmt;

// An error, in the order of the numbers of the sentences.
#[derive(Clone, Copy, Debug, PartialEq, Eq)]
pub enum Error {
    LongLine = 1,
    Foreign,
    Call,
    Number,
    Dash,
    Argument,
    Twice,
    Meter,
    Basis,
    Form,
    Source,
    Reason,
    Large,
    Part,
    Day,
    Item,
    DayLength,
    ListLength,
    Counted,
    Last,
}

impl Error {
    // The number of its sentence: the answers for programs, whose records are numbers alone, have it.
    #[tactic(auto, unfolding(crate::specs::Codes::error_number))]
    pub fn number(self) -> u32
        ensures { result ≡ error_number self }
    {
        self as u32
    }
}

// A number that no error has.
#[derive(Clone, Copy, Debug, PartialEq, Eq)]
pub struct UnknownError(pub u32);

// The error of a number.
#[tactic(auto, using(crate::proofs::Ends::error_some, crate::proofs::Ends::error_last), unfolding(crate::specs::Codes::error_number))]
impl TryFrom<u32> for Error {
    type Error = UnknownError;

    ghost try_from_gives = { Decodes };

    fn try_from(number: u32) -> Result<Self, UnknownError> {
        match number {
            1 => Ok(Error::LongLine),
            2 => Ok(Error::Foreign),
            3 => Ok(Error::Call),
            4 => Ok(Error::Number),
            5 => Ok(Error::Dash),
            6 => Ok(Error::Argument),
            7 => Ok(Error::Twice),
            8 => Ok(Error::Meter),
            9 => Ok(Error::Basis),
            10 => Ok(Error::Form),
            11 => Ok(Error::Source),
            12 => Ok(Error::Reason),
            13 => Ok(Error::Large),
            14 => Ok(Error::Part),
            15 => Ok(Error::Day),
            16 => Ok(Error::Item),
            17 => Ok(Error::DayLength),
            18 => Ok(Error::ListLength),
            19 => Ok(Error::Counted),
            20 => Ok(Error::Last),
            _ => Err(UnknownError(number)),
        }
    }
}

impl fmt::Display for UnknownError {
    fn fmt<W: fmt::Write>(&self, f: &mut fmt::Formatter<W>) -> fmt::Result {
        let UnknownError(number) = self;
        write!(f, "no error has the number {number}")
    }
}

impl std::error::Error for UnknownError {}

// An error, and the place of its token from 0.
#[derive(Clone, Copy, Debug, PartialEq, Eq)]
pub struct Fault {
    pub error: Error,
    pub place: usize,
}
