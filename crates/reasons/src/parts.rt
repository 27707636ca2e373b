// The reasons that have to be worked out: the point of document 000, the reading and C'. What is asked of a record's fields is
// asked of numbers: a record crosses C with any bits, which number 2 judges. The 744 words of the buffer are a clause, since it is
// the caller's list.
ghost use Rattle.std.specs.Prelude.{◌≡◌, ◌≤◌, length, option_map};
ghost use Rattle.units.specs.Volumes.{greatest_volume_read};
ghost use Rattle.record.specs.Record.{kwh};
ghost use Rattle.first_ground.specs.Counts.{inputs_of};
ghost use Rattle.reasons.specs.Reasons.{clause_of, volume_read, compared_past, compared_in};

use first_ground::{Counts, Metered};
use grounds::hours::by_past;
use marks::capacity_sum;
use record::Record;
use rules::{Clause, Ground};
use units::Kwh;

// The point of document 000: none with a billing reading; else 178 with two denials; else 179 out of service; else 166.
#[tactic(auto, unfolding(crate::specs::Reasons::clause_of))]
pub(crate) fn clause_of(r: Record) -> Option<Clause>
    ensures { result ≡ clause_of r }
{
    if r.readings.billing.given == 1 {
        None
    } else if r.service.denials == 2 {
        Some(Clause::DeniedTwice)
    } else if r.service.serving == 1 {
        Some(Clause::Missed)
    } else {
        Some(Clause::OutOfService)
    }
}

// The reading in a volume that V comes from: that of the billing meter, or without a billing reading that of the control meter.
#[tactic(auto, unfolding(crate::specs::Reasons::volume_read))]
pub(crate) fn volume_read(counts: &Counts<'_>) -> Option<Kwh>
    ensures { result ≡ option_map kwh (volume_read (inputs_of counts.now).billing (inputs_of counts.now).control) }
{
    match counts.billing {
        Metered::Missing => match counts.control {
            Metered::Volume(k) => Some(k),
            Metered::Missing => None,
            Metered::Hours(_) => None,
        },
        Metered::Hours(_) => None,
        Metered::Volume(b) => Some(b),
    }
}

// C' of a volume by the past, where R and n ask for it. Ground 4's hours, which ground 6 has too, go into the buffer first.
fn compared_past(counts: &Counts<'_>, v: Kwh, hours: &mut [u32]) -> Option<Kwh>
    requires { (v.0 ≤ greatest_volume_read) × (length hours.old ≡ 744) }
    ensures { result ≡ option_map kwh (compared_past (inputs_of counts.now) v.0 (inputs_of counts.now).past) }
{
    let past = counts.past?;
    let due = (3 <= counts.counted) & (0 < counts.survey.peaks);
    if !due {
        return None;
    }
    by_past(
        Ground::ControlByPastTested,
        v,
        past,
        counts.marks.len(),
        hours,
    );
    Some(capacity_sum(counts.marks, hours))
}

// C', where ground 6 asks for it: without a billing reading, and with the volume of an integral control meter.
pub(crate) fn compared(counts: &Counts<'_>, hours: &mut [u32]) -> Option<Kwh>
    requires { length hours.old ≡ 744 }
    ensures { result ≡ option_map kwh (compared_in (inputs_of counts.now)) }
{
    match counts.billing {
        Metered::Missing => match counts.control {
            Metered::Volume(k) => compared_past(counts, counts.less_neighbour(k), hours),
            Metered::Missing => None,
            Metered::Hours(_) => None,
        },
        Metered::Hours(_) => None,
        Metered::Volume(_) => None,
    }
}
