// The calls on a point through C: each takes the record by value, the store and the hours as a pointer and a length, and
// answers a struct by value. A wrapper has the contract of the call behind it. The names, a function for each call, and the
// numbers for a source and a reason are those of the C interface, which has no enum and no Result.
ghost use Rattle.std.specs.Prelude.{[]};
ghost use Rattle.rules.specs.Calls.MeterReading.{billing_hours, billing_volume, control_hours, control_volume, neighbour};
ghost use Rattle.rules.specs.Calls.Report.{failure, admission, denial, permission};
ghost use Rattle.rules.specs.Calls.Call.{read, report, closing};
ghost use Rattle.model.specs.Model.{state, Does};
ghost use Rattle.model.specs.Opening.{Opens};

use calendar::Date;
use closing::close;
use contract::Contract;
use events::{admit, deny, fail, permit};
use model::Answer;
use opening::open_point;
use readings::{
    read_billing_hours, read_billing_volume, read_control_hours, read_control_volume,
    read_neighbour,
};
use record::Record;
use units::Kwh;

#[unsafe(no_mangle)]
pub extern "C" fn sallowbingo_open_point(
    asked: Contract,
    date: Date,
    currents: &[u32],
    place: usize,
    store: &mut [u32],
) -> Answer
    ensures { Opens (record { asked = asked; date = date; currents = currents.now; place = place }) store.old result store.new }
{
    open_point(asked, date, currents, place, store)
}

#[unsafe(no_mangle)]
pub extern "C" fn sallowbingo_read_billing_hours(
    r: Record,
    store: &mut [u32],
    hours: &[u32],
) -> Answer
    ensures { Does (state r store.old) (read (billing_hours hours.now)) result store.new [] }
{
    read_billing_hours(r, store, hours)
}

#[unsafe(no_mangle)]
pub extern "C" fn sallowbingo_read_control_hours(
    r: Record,
    store: &mut [u32],
    hours: &[u32],
) -> Answer
    ensures { Does (state r store.old) (read (control_hours hours.now)) result store.new [] }
{
    read_control_hours(r, store, hours)
}

#[unsafe(no_mangle)]
pub extern "C" fn sallowbingo_read_billing_volume(r: Record, store: &[u32], volume: Kwh) -> Answer
    ensures { Does (state r store.now) (read (billing_volume volume.0)) result store.now [] }
{
    read_billing_volume(r, store, volume)
}

#[unsafe(no_mangle)]
pub extern "C" fn sallowbingo_read_control_volume(r: Record, store: &[u32], volume: Kwh) -> Answer
    ensures { Does (state r store.now) (read (control_volume volume.0)) result store.now [] }
{
    read_control_volume(r, store, volume)
}

#[unsafe(no_mangle)]
pub extern "C" fn sallowbingo_read_neighbour(
    r: Record,
    store: &[u32],
    source: u32,
    volume: Kwh,
) -> Answer
    ensures { Does (state r store.now) (read (neighbour source volume.0)) result store.now [] }
{
    read_neighbour(r, store, source, volume)
}

#[unsafe(no_mangle)]
pub extern "C" fn sallowbingo_fail(r: Record, store: &mut [u32], reason: u32) -> Answer
    ensures { Does (state r store.old) (report (failure reason)) result store.new [] }
{
    fail(r, store, reason)
}

#[unsafe(no_mangle)]
pub extern "C" fn sallowbingo_admit(r: Record, store: &[u32]) -> Answer
    ensures { Does (state r store.now) (report admission) result store.now [] }
{
    admit(r, store)
}

#[unsafe(no_mangle)]
pub extern "C" fn sallowbingo_deny(r: Record, store: &mut [u32]) -> Answer
    ensures { Does (state r store.old) (report denial) result store.new [] }
{
    deny(r, store)
}

#[unsafe(no_mangle)]
pub extern "C" fn sallowbingo_permit(r: Record, store: &[u32]) -> Answer
    ensures { Does (state r store.now) (report permission) result store.now [] }
{
    permit(r, store)
}

#[unsafe(no_mangle)]
pub extern "C" fn sallowbingo_close(
    r: Record,
    store: &mut [u32],
    marks: &[u8],
    hours: &mut [u32],
) -> Answer
    ensures { Does (state r store.old) (closing marks.now hours.old) result store.new hours.new }
{
    close(r, store, marks, hours)
}
