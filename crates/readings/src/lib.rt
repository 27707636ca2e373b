// This month's readings: of the billing meter and the control meter in both forms, and of the neighbour.
#![tactic(auto)]

ghost use Rattle.std.specs.Prelude.{◌≡◌, ℕ, [], ◌≤◌, OnOk};
ghost use Rattle.record.specs.Record.{with_readings};
ghost use Rattle.rules.specs.Calls.MeterReading.{billing_hours, billing_volume, control_hours, control_volume, neighbour};
ghost use Rattle.rules.specs.Calls.Call.{read};
ghost use Rattle.model.specs.Refusals.{refuse, hour_above, volume_above, source_given};
ghost use Rattle.model.specs.Model.{state, with_source, Does};
ghost use Rattle.model.specs.Refused.{number_or, Gives};
ghost use Rattle.readings.specs.Meters.{form_kind, kind_of, reading_of, with_reading, row_of, bars, hours_call, volume_call, refuse_meter, source_number};
ghost use Rattle.readings.specs.Meters.{FindsSource};

use calendar::open_hours;
use contract::Contract;
use model::refusals::{Refusal, check_anyone, refuse_if};
use model::{Answer, answer_behind};
use numbers::none_above;
use record::changes::{given_as, given_hours};
use record::{Reading, ReadingOf, Readings, Record, Service};
use store::write_row;
use units::Kwh;
use validity::volume_limit;

// How a meter is read: an interval meter in hours, an integral one in a volume.
#[derive(Clone, Copy, Debug, PartialEq, Eq)]
enum Form {
    Hours,
    Volume,
}

impl Form {
    // The kind of such a meter in a contract.
    fn kind(self) -> u32
        ensures { result ≡ form_kind self }
    {
        match self {
            Form::Hours => 1,
            Form::Volume => 2,
        }
    }
}

// A meter of the point. Of the four readings of a month two are of such a meter; with `ReadingOf` two cases would have no answer.
#[derive(Clone, Copy, Debug, PartialEq, Eq)]
enum Meter {
    Billing,
    Control,
}

impl Meter {
    fn kind(self, c: Contract) -> u32
        ensures { result ≡ kind_of self c }
    {
        match self {
            Meter::Billing => c.billing,
            Meter::Control => c.control,
        }
    }

    fn reading(self, g: Readings) -> Reading
        ensures { result ≡ reading_of self g }
    {
        match self {
            Meter::Billing => g.billing,
            Meter::Control => g.control,
        }
    }

    fn row(self) -> usize
        ensures { (result ≡ row_of self) × (result ≤ 13) }
    {
        match self {
            Meter::Billing => 12,
            Meter::Control => 13,
        }
    }

    // A billing reading is barred while out of service or with two denials, a control reading never.
    fn is_barred(self, s: Service) -> bool
        ensures { result ≡ bars self s }
    {
        match self {
            Meter::Billing => s.serving != 1 || s.denials == 2,
            Meter::Control => false,
        }
    }

    // The record gets this meter's reading.
    fn give(self, r: &mut Record, x: Reading)
        ensures { r.new ≡ with_readings r.old (with_reading self r.old.readings x) }
    {
        match self {
            Meter::Billing => r.set_reading(ReadingOf::Billing, x),
            Meter::Control => r.set_reading(ReadingOf::Control, x),
        }
    }
}

// Where a neighbour's volume is read: at its billing meter, or at its control meter. The other two readings of `ReadingOf` have
// no number among the sources.
#[derive(Clone, Copy, Debug, PartialEq, Eq)]
enum Source {
    First,
    Second,
}

// Number 20 where no source has the number.
#[tactic(auto, unfolding(model::proofs::Laws::call_definitions))]
impl TryFrom<u32> for Source {
    type Error = Refusal;

    ghost try_from_gives = { FindsSource };

    fn try_from(number: u32) -> Result<Source, Refusal> {
        match number {
            1 => Ok(Source::First),
            2 => Ok(Source::Second),
            _ => Err(Refusal::NoSuchMeter),
        }
    }
}

impl Source {
    fn is_given(self, r: Record) -> bool
        ensures { result ≡ source_given r (source_number self) }
    {
        match self {
            Source::First => r.readings.first.given == 1,
            Source::Second => r.readings.second.given == 1,
        }
    }

    // The record gets this source's reading.
    fn give(self, r: &mut Record, x: Reading)
        ensures { r.new ≡ with_readings r.old (with_source r.old.readings (source_number self) x) }
    {
        match self {
            Source::First => r.set_reading(ReadingOf::First, x),
            Source::Second => r.set_reading(ReadingOf::Second, x),
        }
    }
}

// Anyone's refusals, and then 20 to 22 of a reading in a form. The kinds of the contract are numbers, as C gives them.
fn check_meter(words: usize, r: Record, meter: Meter, form: Form) -> Result<(), Refusal>
    ensures number { (rest : ℕ) → refuse_meter words r meter (form_kind form) rest ≡ number_or result rest }
    ensures passed { OnOk result (words ≡ 10416) }
{
    check_anyone(words, r)?;
    refuse_if(meter.kind(r.contract) != form.kind(), Refusal::NoSuchMeter)?;
    refuse_if(meter.is_barred(r.service), Refusal::Barred)?;
    refuse_if(meter.reading(r.readings).given == 1, Refusal::AlreadyGiven)
}

// Number 24 of a volume.
fn check_volume(r: Record, volume: Kwh) -> Result<(), Refusal>
    ensures { (rest : ℕ) → refuse (volume_above r volume.0) 24 rest ≡ number_or result rest }
{
    refuse_if(volume_limit(r.date) < volume.0, Refusal::ReadingAboveLimit)
}

// Number 24 of hours.
fn has_hour_above(hours: &[u32]) -> bool
    ensures { result ≡ hour_above hours.now }
{
    !none_above(hours, 1000000)
}

#[tactic(auto, using(crate::proofs::Laws::hours_laws))]
fn try_hours(r: &mut Record, store: &mut [u32], meter: Meter, hours: &[u32]) -> Result<(), Refusal>
    ensures { Gives (state r.old store.old) (hours_call meter hours.now) result (state r.new store.new) }
{
    let t = open_hours(r.date) as usize;
    check_meter(store.len(), *r, meter, Form::Hours)?;
    refuse_if(hours.len() != t, Refusal::NotMonthHours)?;
    refuse_if(has_hour_above(hours), Refusal::ReadingAboveLimit)?;
    write_row(store, meter.row(), hours);
    meter.give(r, given_hours());
    Ok(())
}

#[tactic(auto, using(crate::proofs::Laws::volume_number, crate::proofs::Laws::volume_left), unfolding(model::proofs::Laws::call_definitions))]
fn try_volume(r: &mut Record, store: &[u32], meter: Meter, volume: Kwh) -> Result<(), Refusal>
    ensures { Gives (state r.old store.now) (volume_call meter volume.0) result (state r.new store.now) }
{
    check_meter(store.len(), *r, meter, Form::Volume)?;
    check_volume(*r, volume)?;
    meter.give(r, given_as(volume));
    Ok(())
}

// The source is the number that C gives, and is judged behind 1 to 3.
#[tactic(auto, unfolding(model::proofs::Laws::call_definitions))]
fn try_neighbour(r: &mut Record, store: &[u32], source: u32, volume: Kwh) -> Result<(), Refusal>
    ensures { Gives (state r.old store.now) (read (neighbour source volume.0)) result (state r.new store.now) }
{
    check_anyone(store.len(), *r)?;
    let source = Source::try_from(source)?;
    refuse_if(source.is_given(*r), Refusal::AlreadyGiven)?;
    check_volume(*r, volume)?;
    source.give(r, given_as(volume));
    Ok(())
}

// The hours of an interval billing meter. Document 01 has a call for each meter and form, and C a function for each, so the
// four stay apart; the tests and the writing are two functions.
#[tactic(auto, using(model::proofs::Laws::call_does), unfolding(model::proofs::Laws::call_definitions))]
pub fn read_billing_hours(r: Record, store: &mut [u32], hours: &[u32]) -> Answer
    ensures { Does (state r store.old) (read (billing_hours hours.now)) result store.new [] }
{
    let mut after = r;
    let outcome = try_hours(&mut after, store, Meter::Billing, hours);
    answer_behind(outcome, after)
}

// The hours of an interval control meter.
#[tactic(auto, using(model::proofs::Laws::call_does), unfolding(model::proofs::Laws::call_definitions))]
pub fn read_control_hours(r: Record, store: &mut [u32], hours: &[u32]) -> Answer
    ensures { Does (state r store.old) (read (control_hours hours.now)) result store.new [] }
{
    let mut after = r;
    let outcome = try_hours(&mut after, store, Meter::Control, hours);
    answer_behind(outcome, after)
}

// The volume of an integral billing meter.
#[tactic(auto, using(model::proofs::Laws::call_does), unfolding(model::proofs::Laws::call_definitions))]
pub fn read_billing_volume(r: Record, store: &[u32], volume: Kwh) -> Answer
    ensures { Does (state r store.now) (read (billing_volume volume.0)) result store.now [] }
{
    let mut after = r;
    let outcome = try_volume(&mut after, store, Meter::Billing, volume);
    answer_behind(outcome, after)
}

// The volume of an integral control meter.
#[tactic(auto, using(model::proofs::Laws::call_does), unfolding(model::proofs::Laws::call_definitions))]
pub fn read_control_volume(r: Record, store: &[u32], volume: Kwh) -> Answer
    ensures { Does (state r store.now) (read (control_volume volume.0)) result store.now [] }
{
    let mut after = r;
    let outcome = try_volume(&mut after, store, Meter::Control, volume);
    answer_behind(outcome, after)
}

// A neighbour's volume, of source 1, its billing meter, or 2, its control meter; C gives the source as a number, which 20 judges.
#[tactic(auto, using(model::proofs::Laws::call_does), unfolding(model::proofs::Laws::call_definitions))]
pub fn read_neighbour(r: Record, store: &[u32], source: u32, volume: Kwh) -> Answer
    ensures { Does (state r store.now) (read (neighbour source volume.0)) result store.now [] }
{
    let mut after = r;
    let outcome = try_neighbour(&mut after, store, source, volume);
    answer_behind(outcome, after)
}
