// Why a month is closed on its ground: what the rules look at, before the closing (document 01, 'Closing').
#![tactic(auto)]

ghost use Rattle.std.specs.Prelude.{◌≡◌, cond, length, None, Some};
ghost use Rattle.rules.specs.Calls.Call.{closing};
ghost use Rattle.model.specs.Model.{state, accepted};
ghost use Rattle.model.specs.Settled.{Settled};
ghost use Rattle.reasons.specs.Reasons.{reasons_of};

mod parts;

use closing::check_closing;
use counts::counts_of;
use counts::past::past_month;
use marks::survey_marks;
use parts::{clause_of, compared, volume_read};
use record::Record;
use rules::Reasons;

// The reasons of a closing that is accepted.
fn settled_reasons(r: Record, store: &[u32], marks: &[u8], hours: &mut [u32]) -> Reasons
    requires settled { Settled r store.now marks.now }
    requires room { length hours.old ≡ 744 }
    ensures { result ≡ reasons_of (state r store.now) marks.now }
{
    let counts = counts_of(r, store, marks, survey_marks(marks));
    Reasons {
        clause: clause_of(r),
        reading: volume_read(&counts),
        neighbour: counts.neighbour,
        power: counts.power(),
        peaks: counts.survey.peaks,
        run: r.service.run,
        denials: r.service.denials,
        counted: counts.counted,
        past: past_month(r),
        compared: compared(&counts, hours),
    }
}

// Why a closing with these marks closes the open month as it does; none where it is refused. The hour buffer is room to work
// in.
#[tactic(auto, using(model::proofs::Laws::numbered), unfolding(model::specs::Model::accepted))]
pub fn reasons_of(r: Record, store: &[u32], marks: &[u8], hours: &mut [u32]) -> Option<Reasons>
    ensures { result
        ≡ cond (accepted (state r store.now) (closing marks.now hours.old))
        (Some (reasons_of (state r store.now) marks.now)) None }
{
    match check_closing(r, store, marks, hours) {
        Ok(()) => Some(settled_reasons(r, store, marks, hours)),
        Err(_) => None,
    }
}
