// Days of the week, by the Gregorian calendar.
ghost use Rattle.std.specs.Prelude.{◌≡◌};
ghost use Rattle.line_calls.specs.Week.{first_weekday};

use calendar::{Date, is_open};

// By how many days the first of a month is later in the week than the first of January, in a year that starts in March.
const SHIFTS: [u32; 12] = [0, 3, 2, 5, 0, 3, 5, 1, 4, 6, 2, 4];

// The day of the week of a month's first day, Monday 0. It is 0 and no None where no such month can be open, since a line is
// read before its call is refused, and its days need a first one all the same.
#[tactic(auto, using(calendar::proofs::Laws::open_limits), unfolding(crate::specs::Week::first_weekday, calendar::specs::Calendar::month_number))]
pub fn first_weekday(d: Date) -> u32
    ensures { result ≡ first_weekday d }
{
    if !is_open(d) {
        return 0;
    }
    let shift = SHIFTS[(d.month - 1) as usize];
    let y = u64::from(if d.month < 3 { d.year - 1 } else { d.year });
    ((y + y / 4 - y / 100 + y / 400 + u64::from(shift)) % 7) as u32
}
