#![tactic(auto)]

ghost use Rattle.std.specs.Prelude.{◌≡◌};
ghost use Rattle.calendar.specs.Calendar.{is_month, month_days, february_days, SameLengths, month_hours, is_end, is_open, open_hours};
ghost use Rattle.calendar.specs.Calendar.{month_number, is_month_number, month_in, date_given, date_in, next_in};

// A month of a year. Months count from 1, January, to 12, December. C gives both numbers, so they may be any.
#[repr(C)]
#[derive(Clone, Copy, PartialEq, Eq, PartialOrd, Ord, Default)]
pub struct Date {
    pub year: u32,
    pub month: u32,
}

// The days of January to December, February's in a common year.
const DAYS: [u32; 12] = [31, 28, 31, 30, 31, 30, 31, 31, 30, 31, 30, 31];

// February's days in year `y`, by the cases of the Gregorian rule in its own order: divisible by 400, by 100, by 4, otherwise.
#[tactic(auto, unfolding(crate::specs::Calendar::february_days))]
fn february_days(y: u32) -> u32
    ensures { result ≡ february_days y }
{
    let common = DAYS[1];
    let leap = common + 1;
    if y % 400 == 0 {
        return leap;
    }
    if y % 100 == 0 {
        return common;
    }
    if y % 4 == 0 {
        return leap;
    }
    common
}

// Whether `d` is one of the months that are calculated, January 2014 to December 2999.
#[tactic(auto, unfolding(crate::specs::Calendar::is_month))]
pub fn is_month(d: Date) -> bool
    ensures { result ≡ is_month d }
{
    (1..=12).contains(&d.month) & (2014..=2999).contains(&d.year)
}

// The days of month `d`; 0 where it is none of the months that are calculated. It is 0 and no Option, since the C function for
// it gives that number. The place in the list is the month less 1, written where the month is known to be one, here and
// elsewhere: a function for it would require that and promise the same difference.
#[tactic(auto, using(crate::proofs::Laws::limits, crate::proofs::Laws::same_february), unfolding(crate::specs::Calendar::month_days))]
pub fn month_days(d: Date) -> u32
    ensures { result ≡ month_days d }
{
    if is_month(d) {
        if d.month == 2 {
            return february_days(d.year);
        }
        let i = (d.month - 1) as usize;
        return DAYS[i];
    }
    0
}

// Whether February goes by the cases of the Gregorian rule or by one condition for leap years, every date has the same length, 0 outside
// the limits included. The theorem is the contract of a function that does nothing, so that it stands among the contracts.
#[tactic(auto, using(crate::proofs::Laws::same_length))]
pub fn same_lengths()
    ensures { SameLengths }
{}

// T, the hours of month `d`: 24 for each day.
#[tactic(auto, using(crate::proofs::Laws::days_high), unfolding(crate::specs::Calendar::month_hours))]
pub fn month_hours(d: Date) -> u32
    ensures { result ≡ month_hours d }
{
    24 * month_days(d)
}

// The month behind the last one that is calculated.
const END: Date = Date {
    year: 3000,
    month: 1,
};

// January 3000, which can be open and is never closed.
fn is_end(d: Date) -> bool
    ensures { result ≡ is_end d }
{
    d == END
}

// Whether a record can have `d` open: a month that is calculated, or January 3000.
pub fn is_open(d: Date) -> bool
    ensures { result ≡ is_open d }
{
    is_month(d) | is_end(d)
}

// T of a month that a record has open. January 3000 follows the last month that is closed, so it has its 744 hours here. Where a
// list is measured by it, it is cast, since usize has no From of 32 bits.
#[tactic(auto, unfolding(crate::specs::Calendar::open_hours))]
pub fn open_hours(d: Date) -> u32
    ensures { result ≡ open_hours d }
{
    if is_end(d) { 744 } else { month_hours(d) }
}

// The number of month `d`, by which months are counted and compared: any two that follow each other are one apart.
#[tactic(auto, unfolding(crate::specs::Calendar::month_number))]
pub fn month_number(d: Date) -> u64
    ensures { result ≡ month_number d }
{
    u64::from(d.year) * 12 + u64::from(d.month)
}

// Whether `n` is the number of a month that is calculated, 2014 to 2999.
pub fn is_month_number(n: u64) -> bool
    ensures { result ≡ is_month_number n }
{
    (24169..=36000).contains(&n)
}

// The month whose number is `n`, from January 2014 to January 3000; any number may be asked for. Year and month fit, as the
// contract shows; `try_from` would bring a case that there is not.
#[tactic(auto, unfolding(crate::specs::Calendar::month_in, crate::specs::Calendar::date_in, crate::specs::Calendar::date_of))]
pub fn date_of(n: u64) -> Option<Date>
    ensures month { result ≡ month_in n }
    ensures date { date_given result ≡ date_in n }
{
    if !(24169..=36001).contains(&n) {
        return None;
    }
    Some(Date {
        year: ((n - 1) / 12) as u32,
        month: ((n - 1) % 12 + 1) as u32,
    })
}

// The month after `d`; `d` itself where it is none of the months that are calculated, so that no date is left without an answer:
// a record always holds a month.
#[tactic(auto, using(crate::proofs::Laws::limits), unfolding(crate::specs::Calendar::next_in, crate::specs::Calendar::next_month))]
pub fn next_month(d: Date) -> Date
    ensures { result ≡ next_in d }
{
    if !is_month(d) {
        return d;
    }
    if d.month == 12 {
        return Date {
            year: d.year + 1,
            month: 1,
        };
    }
    Date {
        month: d.month + 1,
        ..d
    }
}
