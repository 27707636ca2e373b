// The bases of a power, by their numbers.
ghost use Rattle.power.specs.Basis.{Decodes};

use std::error::Error;
use std::fmt;

/// What P stands on: a power agreed for the point, one agreed for all points of a list and shared, or the cable formula.
#[derive(Clone, Copy, Debug, PartialEq, Eq)]
pub enum Basis {
    Agreed,
    Shared,
    Formula,
}

/// A number that no basis has.
#[derive(Clone, Copy, Debug, PartialEq, Eq)]
pub struct UnknownBasis(pub u32);

impl TryFrom<u32> for Basis {
    type Error = UnknownBasis;

    ghost try_from_gives = { Decodes };

    fn try_from(number: u32) -> Result<Self, UnknownBasis> {
        match number {
            1 => Ok(Basis::Agreed),
            2 => Ok(Basis::Shared),
            3 => Ok(Basis::Formula),
            _ => Err(UnknownBasis(number)),
        }
    }
}

impl fmt::Display for UnknownBasis {
    fn fmt<W: fmt::Write>(&self, f: &mut fmt::Formatter<W>) -> fmt::Result {
        let UnknownBasis(number) = self;
        write!(f, "no basis has the number {number}")
    }
}

impl Error for UnknownBasis {}
