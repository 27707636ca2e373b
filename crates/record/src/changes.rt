// Readings made, and a record with one of its readings replaced.
ghost use Rattle.std.specs.Prelude.{◌≡◌};
ghost use Rattle.record.specs.Record.{given_as, with_readings, with_reading};

use super::{Reading, ReadingOf, Record};
use units::Kwh;

// A reading with its volume.
pub fn given_as(volume: Kwh) -> Reading
    ensures { result ≡ given_as volume.0 }
{
    Reading { given: 1, volume }
}

// A reading of hours, which stand in the store, and no volume.
pub fn given_hours() -> Reading
    ensures { result ≡ given_as 0 }
{
    given_as(Kwh(0))
}

impl Record {
    // Replaces one of the readings. The record is lent, since a call that copies it once more takes half as long again
    // (docs/SPEED.md).
    pub fn set_reading(&mut self, of: ReadingOf, x: Reading)
        ensures { self.new ≡ with_readings self.old (with_reading self.old.readings of x) }
    {
        match of {
            ReadingOf::Billing => self.readings.billing = x,
            ReadingOf::Control => self.readings.control = x,
            ReadingOf::First => self.readings.first = x,
            ReadingOf::Second => self.readings.second = x,
        }
    }

    // A record with one of its readings replaced.
    pub fn with_reading(self, of: ReadingOf, x: Reading) -> Record
        ensures { result ≡ with_readings self (with_reading self.readings of x) }
    {
        let mut after = self;
        after.set_reading(of, x);
        after
    }
}
