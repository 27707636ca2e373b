// What counts at a closing (document 01, 'Closing'), from the record and the store: R, N, the readings of the two meters, and the past.
// What is asked of a record's fields, `given`, the kinds of meter and the denials, is asked of numbers: a record crosses C with any
// bits, which number 2 judges.
#![tactic(auto)]

ghost use Rattle.std.specs.Prelude.{◌≡◌, ◌≤◌};
ghost use Rattle.marks.specs.Marks.{survey_of};
ghost use Rattle.rules.specs.Rules.{counted_of, neighbour_of};
ghost use Rattle.model.specs.Model.{state, stated_in, measured_in, inputs};
ghost use Rattle.model.specs.Settled.{Settled};
ghost use Rattle.first_ground.specs.Metered.{measured_of};
ghost use Rattle.first_ground.specs.Counts.{inputs_of};

pub mod past;

use first_ground::{Counts, Metered};
use marks::Survey;
use past::past_hours;
use record::{Reading, Readings, Record, Service};
use store::row_hours;
use units::Kwh;

// R: the run plus 1, and 3 if that is less while denials are 2.
#[tactic(auto, unfolding(rules::specs::Rules::counted_of))]
fn counted(s: Service) -> u32
    requires { s.run ≤ 12000 }
    ensures { result ≡ counted_of s.run s.denials }
{
    let next = s.run + 1;
    if s.denials == 2 { next.max(3) } else { next }
}

// N: the first neighbour reading if given, else the second, else 0, which is document 01's value and not a sign of none: V is
// taken less N.
#[tactic(auto, using(crate::proofs::Laws::neighbour_first, crate::proofs::Laws::neighbour_second, crate::proofs::Laws::neighbour_none))]
fn neighbour_volume(g: Readings) -> Kwh
    ensures { result.0 ≡ neighbour_of (stated_in g.first) (stated_in g.second) }
{
    if g.first.given == 1 {
        g.first.volume
    } else if g.second.given == 1 {
        g.second.volume
    } else {
        Kwh(0)
    }
}

// The reading of a meter of this kind, whose hours would be in this row.
#[tactic(auto, unfolding(model::specs::Model::measured_in))]
fn metered(kind: u32, g: Reading, row: &[u32]) -> Metered<'_>
    ensures { measured_of result ≡ measured_in kind g row.now }
{
    if g.given != 1 {
        return Metered::Missing;
    }
    if kind == 1 {
        Metered::Hours(row)
    } else {
        Metered::Volume(g.volume)
    }
}

// What counts at a closing that is accepted.
pub fn counts_of<'a>(r: Record, store: &'a [u32], marks: &'a [u8], survey: Survey) -> Counts<'a>
    requires settled { Settled r store.now marks.now }
    requires surveyed { survey ≡ survey_of marks.now }
    ensures { inputs_of result ≡ inputs (state r store.now) marks.now }
{
    let t = marks.len();
    Counts {
        contract: r.contract,
        marks,
        survey,
        counted: counted(r.service),
        billing: metered(
            r.contract.billing,
            r.readings.billing,
            row_hours(store, 12, t),
        ),
        control: metered(
            r.contract.control,
            r.readings.control,
            row_hours(store, 13, t),
        ),
        neighbour: neighbour_volume(r.readings),
        past: past_hours(r, store),
    }
}
