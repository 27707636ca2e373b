// The past of a month: which month it is, and its hours in the store.
ghost use Rattle.std.specs.Prelude.{◌≡◌, true, length};
ghost use Rattle.validity.specs.Valid.{valid};
ghost use Rattle.model.specs.Model.{state, past_month, past_in};
ghost use Rattle.first_ground.specs.Metered.{lent_past};

use calendar::{Date, date_of, open_hours};
use record::Record;
use store::row_hours;

// The same month last year, if its row holds that year; else the latest past month; else none.
pub fn past_month(r: Record) -> Option<Date>
    requires { valid r ≡ true }
    ensures { result ≡ past_month r }
{
    let same = Date {
        year: r.date.year - 1,
        ..r.date
    };
    let row = (r.date.month - 1) as usize;
    if r.past.years[row] == same.year {
        return Some(same);
    }
    date_of(r.past.latest)
}

// The hours of the past month, if there is one: the part &store[744*r..744*r+T'] that its row holds.
pub(crate) fn past_hours(r: Record, store: &[u32]) -> Option<&[u32]>
    requires { (valid r ≡ true) × (length store.now ≡ 10416) }
    ensures { lent_past result ≡ past_in (state r store.now) }
{
    let past = past_month(r)?;
    let row = (past.month - 1) as usize;
    let t = open_hours(past) as usize;
    Some(row_hours(store, row, t))
}
