// What a closing leaves: the record of the next month, and the store. `new` is the definition's parameter, whether the month
// becomes the past. Each function takes another part of the closing, so what is known of that part is a clause.
ghost use Rattle.std.specs.Prelude.{◌≡◌, true, cond, length, ◌≤◌};
ghost use Rattle.calendar.specs.Calendar.{is_month};
ghost use Rattle.units.specs.Volumes.{greatest_month_volume, greatest_total};
ghost use Rattle.store.specs.Store.{with_hours};
ghost use Rattle.model.specs.Model.{past_after, point_after, store_after};

use calendar::{Date, month_number, next_month};
use record::{Past, Readings, Record, Service};
use store::{clear_row, write_row};
use units::Kwh;

// Where the month becomes the past: its year in its row, and the latest past month. The row is one place of an array, for which
// there is no struct update.
#[tactic(auto, using(calendar::proofs::Laws::limits))]
fn past_after(new: bool, p: Past, d: Date) -> Past
    requires { is_month d ≡ true }
    ensures { result ≡ past_after new p d }
{
    if !new {
        return p;
    }
    let mut years = p.years;
    years[(d.month - 1) as usize] = d.year;
    Past {
        years,
        latest: month_number(d),
    }
}

// The next month opens, with no readings; the total grows by the volume, and the run is 0 where the month becomes the
// past and else grows by 1.
#[tactic(auto, using(calendar::proofs::Laws::next_in_lem))]
pub(crate) fn point_after(r: Record, new: bool, volume: Kwh) -> Record
    requires { (is_month r.date ≡ true) × (r.service.run ≤ 12000) × (r.total.0 ≤ greatest_total) × (volume.0 ≤ greatest_month_volume) }
    ensures { result ≡ point_after new volume.0 r }
{
    let run = if new { 0 } else { r.service.run + 1 };
    Record {
        date: next_month(r.date),
        service: Service { run, ..r.service },
        past: past_after(new, r.past, r.date),
        readings: Readings::default(),
        total: Kwh(r.total.0 + volume.0),
        ..r
    }
}

// The hours become their month's row where the month becomes the past.
#[tactic(auto, using(store::proofs::Laws::written_in_lem))]
fn keep_hours(store: &mut [u32], new: bool, row: usize, hours: &[u32])
    requires { (length store.old ≡ 10416) × (row ≤ 11) × (length hours.now ≡ 744) }
    ensures { store.new ≡ cond new (with_hours row hours.now store.old) store.old }
{
    if new {
        write_row(store, row, hours);
    }
}

// The same, and rows 12 and 13 clear.
#[tactic(auto, using(crate::proofs::Leaves::store_is))]
pub(crate) fn store_after(store: &mut [u32], new: bool, d: Date, hours: &[u32])
    requires { (length store.old ≡ 10416) × (is_month d ≡ true) × (length hours.now ≡ 744) }
    ensures { store.new ≡ store_after new hours.now d store.old }
{
    let row = (d.month - 1) as usize;
    keep_hours(store, new, row, hours);
    clear_row(store, 12);
    clear_row(store, 13);
}
