// Why a call is refused, and the tests that several calls share. A call tests its numbers in the order of model/specs/Refusals.antt.
ghost use Rattle.std.specs.Prelude.{◌≡◌, ℕ, true, false, OnOk};
ghost use Rattle.validity.specs.Valid.{valid};
ghost use Rattle.model.specs.Refusals.{refuse, refuse_anyone};
ghost use Rattle.model.specs.Refused.{refusal_number, number_or};

use record::Record;
use validity::is_valid;

// Each refusal with its number (document 01, 'Who causes which number').
#[derive(Clone, Copy, Debug, PartialEq, Eq)]
pub enum Refusal {
    StoreSize = 1,
    InvalidRecord = 2,
    CalendarOver = 3,
    NoSuchMonth = 10,
    MeterKind = 11,
    BasisOrPower = 12,
    CableValue = 13,
    CurrentsOrPlace = 14,
    IntegralMeter = 15,
    NoSuchMeter = 20,
    Barred = 21,
    AlreadyGiven = 22,
    NotMonthHours = 23,
    ReadingAboveLimit = 24,
    OutOfService = 30,
    UnknownReason = 31,
    InService = 32,
    TwoDenials = 33,
    NoDenial = 34,
    NotMonthMarks = 40,
    UnknownMark = 41,
    TooManyPeakHours = 42,
    TooManyCapacityHours = 43,
    HourBufferSize = 44,
    WordAboveLimit = 45,
    NoCapacityHour = 46,
}

impl Refusal {
    // The number that the call answers. Each enum with numbers has a function for them, since a cast needs the type; a trait
    // would state each definition once more.
    pub fn number(self) -> u32
        ensures { result ≡ refusal_number self }
    {
        self as u32
    }
}

// Refused where the test applies. So the list of refusals that begins with this test has this number there, and else that
// of its rest.
#[tactic(auto, unfolding(crate::specs::Refusals::refuse))]
pub fn refuse_if(test: bool, refusal: Refusal) -> Result<(), Refusal>
    ensures number { (rest : ℕ) → refuse test (refusal_number refusal) rest ≡ number_or result rest }
    ensures passed { OnOk result (test ≡ false) }
{
    if test { Err(refusal) } else { Ok(()) }
}

// Anyone's refusals, 1 to 3, before those of the call itself.
pub fn check_anyone(words: usize, r: Record) -> Result<(), Refusal>
    ensures number { (rest : ℕ) → refuse_anyone words r rest ≡ number_or result rest }
    ensures passed { OnOk result ((words ≡ 10416) × (valid r ≡ true)) }
{
    refuse_if(words != 10416, Refusal::StoreSize)?;
    refuse_if(!is_valid(r), Refusal::InvalidRecord)?;
    refuse_if(r.date.year == 3000, Refusal::CalendarOver)
}
