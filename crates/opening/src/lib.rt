// Opening a point, on its three bases.
#![tactic(auto)]

ghost use Rattle.std.specs.Prelude.{ℕ, ◌≡◌};
ghost use Rattle.model.specs.Refusals.{refuse_asked};
ghost use Rattle.model.specs.Opening.{Opens};
ghost use Rattle.model.specs.Refused.{number_or, GivesPoint};

use calendar::{Date, is_month};
use contract::{Contract, integral_on_big_load, is_agreed, keep, meters_fit};
use model::refusals::{Refusal, refuse_if};
use model::{Answer, answer_of};
use power::{agreed_fits, list_fits, power_of};
use record::{Record, fresh_record, zero_record};
use store::clear_store;

// What is asked for has to fit: 1 and 10 to 14. Contract, month, list and place come from C as four arguments, and go on so: a
// struct of them would be made in one function and taken apart in the next.
fn check_asked(
    words: usize,
    asked: Contract,
    date: Date,
    currents: &[u32],
    place: usize,
) -> Result<(), Refusal>
    ensures { (rest : ℕ)
        → refuse_asked words (record { asked = asked; date = date; currents = currents.now; place = place }) rest ≡ number_or result rest }
{
    let cabled = asked.basis == 3;
    let agreed = is_agreed(asked.basis) && agreed_fits(asked.power);
    refuse_if(words != 10416, Refusal::StoreSize)?;
    refuse_if(!is_month(date), Refusal::NoSuchMonth)?;
    refuse_if(!meters_fit(asked), Refusal::MeterKind)?;
    refuse_if(!(cabled || agreed), Refusal::BasisOrPower)?;
    refuse_if(cabled && !asked.cable.fits(), Refusal::CableValue)?;
    refuse_if(
        asked.basis == 2 && !list_fits(currents, place),
        Refusal::CurrentsOrPlace,
    )
}

// The refusals of an opening, 15 behind those of `check_asked`, and else the point.
#[tactic(auto, unfolding(model::specs::Refusals::open_refusal))]
fn try_open(
    asked: Contract,
    date: Date,
    currents: &[u32],
    place: usize,
    store: &mut [u32],
) -> Result<Record, Refusal>
    ensures { GivesPoint (record { asked = asked; date = date; currents = currents.now; place = place }) store.old result store.new }
{
    check_asked(store.len(), asked, date, currents, place)?;
    let p = power_of(asked.basis, asked.power, currents, place, asked.cable);
    refuse_if(
        integral_on_big_load(asked.billing, p),
        Refusal::IntegralMeter,
    )?;
    clear_store(store);
    Ok(fresh_record(keep(asked, p), date))
}

// Opens a point for a month on the contract asked for. On basis 1 or 2 the contract's power is the agreed one; on basis 2
// it is shared by the currents of the points' cables, and `place` is the point's place in that list, counted from 0.
#[tactic(auto, using(model::proofs::Laws::opening_does))]
pub fn open_point(
    asked: Contract,
    date: Date,
    currents: &[u32],
    place: usize,
    store: &mut [u32],
) -> Answer
    ensures { Opens (record { asked = asked; date = date; currents = currents.now; place = place }) store.old result store.new }
{
    answer_of(try_open(asked, date, currents, place, store), zero_record())
}
