// Number 2: whether a record is one that a point can have. Each function tests one part, in the order of its definition. The
// fields are numbers of any bits, since C gives the record, and here is where they are judged.
#![tactic(auto)]

ghost use Rattle.std.specs.Prelude.{◌≡◌, ◌+◌, ◌<◌};
ghost use Rattle.numbers.specs.Lists.{all_to};
ghost use Rattle.validity.specs.Valid.{all_of, rest_is_zero, contract_tests, service_tests, year_before, year_fits, latest_in_row};
ghost use Rattle.validity.specs.Valid.{past_tests, reading_tests, readings_tests, volume_limit, valid};

use calendar::{Date, is_month_number, is_open, month_number, open_hours};
use contract::{Contract, is_agreed, meters_fit};
use power::Cable;
use record::{Past, Reading, Readings, Record, Service};
use units::{GREATEST_TOTAL, Kw};

// T × 1,000,000, the greatest volume of a reading in the open month.
#[tactic(auto, unfolding(crate::specs::Valid::volume_limit))]
pub fn volume_limit(d: Date) -> u64
    ensures { result ≡ volume_limit d }
{
    u64::from(open_hours(d)) * 1000000
}

// What the basis does not use is 0.
fn rest_is_zero(c: Contract) -> bool
    ensures { result ≡ rest_is_zero c }
{
    if c.basis == 3 {
        c.power == Kw(0)
    } else {
        c.cable == Cable::default()
    }
}

fn contract_fits(c: Contract) -> bool
    ensures { result ≡ all_of (contract_tests c) }
{
    let cabled = c.basis == 3;
    meters_fit(c)
        & (is_agreed(c.basis) | cabled)
        & (c.power.0 <= 1000000)
        & (!cabled | c.cable.fits())
        & rest_is_zero(c)
}

fn service_fits(s: Service, d: Date) -> bool
    ensures { result ≡ all_of (service_tests s d) }
{
    (s.run <= 12000)
        & (s.serving <= 1)
        & (s.denials <= 2)
        & ((s.fault == 0) | is_month_number(s.fault))
        & (s.fault <= month_number(d))
}

// Whether the row of calendar month k + 1 may hold the year y while month d is open.
fn year_fits(y: u32, k: u32, d: Date) -> bool
    requires { k < 12 }
    ensures { result ≡ year_before y k d }
{
    let month = Date {
        year: y,
        month: k + 1,
    };
    (y == 0) | ((2014..=2999).contains(&y) & (month_number(month) < month_number(d)))
}

// A loop over the places of the rows: with `all` over the same range the proof did not close.
fn years_fit(years: [u32; 12], d: Date) -> bool
    ensures { result ≡ all_to (year_fits years d) 12 }
{
    let mut ok = true;
    for k in 0..12 {
        ok &= year_fits(years[k as usize], k, d);
    }
    ok
}

// Whether the row of the latest past month holds its year, or there is no such month.
fn latest_in_row(p: Past) -> bool
    ensures { result ≡ latest_in_row p }
{
    if p.latest == 0 {
        return true;
    }
    let before = p.latest - 1;
    u64::from(p.years[(before % 12) as usize]) == before / 12
}

fn past_fits(p: Past, d: Date) -> bool
    ensures { result ≡ all_of (past_tests p d) }
{
    years_fit(p.years, d)
        & ((p.latest == 0) | (is_month_number(p.latest) & (p.latest < month_number(d))))
        & latest_in_row(p)
}

// Whether a reading may be kept: of a meter that the contract has, and integral or a neighbour's where whole holds.
fn reading_fits(g: Reading, has: bool, whole: bool, limit: u64) -> bool
    ensures { result ≡ all_of (reading_tests g has whole limit) }
{
    let given = g.given == 1;
    (g.given <= 1) & ((g.volume.0 == 0) | (given & whole)) & (has | !given) & (g.volume.0 <= limit)
}

fn readings_fit(g: Readings, c: Contract, limit: u64) -> bool
    ensures { result ≡ all_of (readings_tests g c limit) }
{
    reading_fits(g.billing, true, c.billing == 2, limit)
        & reading_fits(g.control, c.control != 0, c.control == 2, limit)
        & reading_fits(g.first, true, true, limit)
        & reading_fits(g.second, true, true, limit)
}

// Whether number 2 does not apply.
#[tactic(auto, unfolding(crate::specs::Valid::valid, crate::specs::Valid::volume_limit))]
pub fn is_valid(r: Record) -> bool
    ensures { result ≡ valid r }
{
    (r.opened == 1)
        & contract_fits(r.contract)
        & is_open(r.date)
        & service_fits(r.service, r.date)
        & past_fits(r.past, r.date)
        & readings_fit(r.readings, r.contract, volume_limit(r.date))
        & (r.total.0 <= GREATEST_TOTAL)
}
