// The record of a point (document 01, 'What a point keeps').
#![tactic(auto)]

ghost use Rattle.std.specs.Prelude.{◌≡◌};
ghost use Rattle.record.specs.Record.{zero_record, fresh_record};

use calendar::Date;
use contract::Contract;
use units::Kwh;

pub mod changes;

// The run of missed months, whether the point is in service, denials of access, and the month of the last fault by its
// number, 0 for none. Flag and month are numbers, a flag 1 for yes and 0 for no, as C keeps them, so that a record of any
// bits can be judged.
#[repr(C)]
#[derive(Clone, Copy, PartialEq, Eq, Default)]
pub struct Service {
    pub run: u32,
    pub serving: u32,
    pub denials: u32,
    pub fault: u64,
}

// For each calendar month the year that its row holds, 0 for none, and the latest past month by its number, 0 for none. They are
// numbers and no options, since C keeps the record between calls.
#[repr(C)]
#[derive(Clone, Copy, PartialEq, Eq, Default)]
pub struct Past {
    pub years: [u32; 12],
    pub latest: u64,
}

// Whether a reading is given, 1 or 0, and the volume of an integral or neighbour one, else 0. It crosses C, so the flag is a
// number beside the volume and no option.
#[repr(C)]
#[derive(Clone, Copy, PartialEq, Eq, Default)]
pub struct Reading {
    pub given: u32,
    pub volume: Kwh,
}

// This month's readings: of the billing meter, of the control meter, and of the neighbour's billing and control meters.
#[repr(C)]
#[derive(Clone, Copy, PartialEq, Eq, Default)]
pub struct Readings {
    pub billing: Reading,
    pub control: Reading,
    pub first: Reading,
    pub second: Reading,
}

// Whose reading one of a month's is: of the billing meter, of the control meter, and of the neighbour's billing and control
// meters.
#[derive(Clone, Copy, PartialEq, Eq)]
pub enum ReadingOf {
    Billing,
    Control,
    First,
    Second,
}

// What a point keeps from call to call, besides the store. The flag `opened` is a number like the others.
#[repr(C)]
#[derive(Clone, Copy, PartialEq, Eq, Default)]
pub struct Record {
    pub opened: u32,
    pub contract: Contract,
    pub date: Date,
    pub service: Service,
    pub past: Past,
    pub readings: Readings,
    pub total: Kwh,
}

// The record of a point that has just been opened: in service, its month open, all else 0 or missing.
pub fn fresh_record(contract: Contract, date: Date) -> Record
    ensures { result ≡ fresh_record contract date }
{
    Record {
        opened: 1,
        contract,
        date,
        service: Service {
            serving: 1,
            ..Service::default()
        },
        ..Record::default()
    }
}

// A record of zeros, which is not open.
pub fn zero_record() -> Record
    ensures { result ≡ zero_record }
{
    Record::default()
}
