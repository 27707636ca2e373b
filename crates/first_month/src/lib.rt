// A month played through the public calls. What their contracts promise makes a run, so demand 3 speaks of it.
#![tactic(auto)]

ghost use Rattle.first_month.specs.FirstMonth.{FirstMonth};

use calendar::Date;
use closing::close;
use contract::Contract;
use model::Answer;
use opening::open_point;

// Opens a point and, if the opening is accepted, closes its first month. If that is accepted too, the total is the sum of
// the hours handed out.
pub fn open_and_close(
    asked: Contract,
    date: Date,
    currents: &[u32],
    place: usize,
    store: &mut [u32],
    marks: &[u8],
    hours: &mut [u32],
) -> Answer
    ensures { FirstMonth (record { asked = asked; date = date; currents = currents.now; place = place })
        store.old marks.now hours.old result store.new hours.new }
{
    let first = open_point(asked, date, currents, place, store);
    if first.refusal != 0 {
        return first;
    }
    let point = first.after;
    close(point, store, marks, hours)
}
