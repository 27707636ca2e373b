// The C interface. The header is include/sallowbingo.h. Here are the two functions of the billing host, plain numbers in
// and out; `calls` has the calls on a point.
#![tactic(auto)]

ghost use Rattle.std.specs.Prelude.{◌≡◌};
ghost use Rattle.calendar.specs.Calendar.{month_days};
ghost use Rattle.power.specs.Power.{formula_in};

use calendar::Date;

pub mod calls;

// The cable formula for some hours, and 2^64 - 1 where a value is outside document 01's limits, since C has no Option.
#[unsafe(no_mangle)]
pub extern "C" fn sallowbingo_cable_formula(
    amperes: u64,
    volts: u64,
    cosine: u64,
    phases: u64,
    hours: u64,
) -> u64
    ensures { result ≡ formula_in (record { amperes = amperes; volts = volts; cosine = cosine; phases = phases }) hours }
{
    power::cable_formula(amperes, volts, cosine, phases, hours)
}

// The length of a month in days, and 0 outside January 2014 to December 2999, since C has no Option.
#[tactic(auto, using(calendar::proofs::Laws::after_last, calendar::proofs::Laws::after_december))]
#[unsafe(no_mangle)]
pub extern "C" fn sallowbingo_month_days(year: u64, month: u64) -> u32
    ensures { result ≡ month_days (record { year = year; month = month }) }
{
    if 2999 < year {
        return 0;
    }
    if 12 < month {
        return 0;
    }
    let date = Date {
        year: year as u32,
        month: month as u32,
    };
    calendar::month_days(date)
}
