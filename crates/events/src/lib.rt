// What the network firm reports: failures, admissions, denials of access and permissions.
#![tactic(auto)]

ghost use Rattle.std.specs.Prelude.{◌≡◌, [], length, ◌≤◌};
ghost use Rattle.rules.specs.Calls.Report.{failure, admission, denial, permission};
ghost use Rattle.rules.specs.Calls.Call.{report};
ghost use Rattle.model.specs.Model.{state, discarded, after_failure, Does};
ghost use Rattle.model.specs.Refused.{Gives};
ghost use Rattle.events.specs.Failures.{reason_number, FindsReason};

use calendar::{Date, month_number};
use model::refusals::{Refusal, check_anyone, refuse_if};
use model::{Answer, answer_behind};
use record::{Reading, ReadingOf, Record, Service};
use store::clear_row;

// Why a billing meter fails.
#[derive(Clone, Copy, Debug, PartialEq, Eq)]
enum Reason {
    Fault,
    Loss,
    VerificationOver,
    TakenDown,
}

// Number 31 where no reason has the number.
#[tactic(auto, unfolding(model::proofs::Laws::call_definitions))]
impl TryFrom<u32> for Reason {
    type Error = Refusal;

    ghost try_from_gives = { FindsReason };

    fn try_from(number: u32) -> Result<Reason, Refusal> {
        match number {
            1 => Ok(Reason::Fault),
            2 => Ok(Reason::Loss),
            3 => Ok(Reason::VerificationOver),
            4 => Ok(Reason::TakenDown),
            _ => Err(Refusal::UnknownReason),
        }
    }
}

// This month's billing reading is no longer given: its volume and row 12 become 0.
#[tactic(auto, using(store::proofs::Laws::written_in_lem))]
fn discard(r: &mut Record, store: &mut [u32])
    requires { length store.old ≡ 10416 }
    ensures { state r.new store.new ≡ discarded (state r.old store.old) }
{
    clear_row(store, 12);
    r.set_reading(ReadingOf::Billing, Reading::default());
}

// Out of service. A fault or loss at most 12 months after an earlier one makes the run 0, and in any case its month is
// kept as the last.
fn after_failure(s: Service, d: Date, reason: Reason) -> Service
    requires { s.fault ≤ 36000 }
    ensures { result ≡ after_failure s d (reason_number reason) }
{
    let month = month_number(d);
    let fault = matches!(reason, Reason::Fault | Reason::Loss);
    let repeat = fault && s.fault != 0 && month <= s.fault + 12;
    Service {
        run: if repeat { 0 } else { s.run },
        serving: 0,
        fault: if fault { month } else { s.fault },
        ..s
    }
}

// The reason is the number that C gives, and is judged behind 1 to 3 and 30.
#[tactic(auto, using(validity::proofs::Laws::fault_most), unfolding(model::proofs::Laws::call_definitions))]
fn try_fail(r: &mut Record, store: &mut [u32], reason: u32) -> Result<(), Refusal>
    ensures { Gives (state r.old store.old) (report (failure reason)) result (state r.new store.new) }
{
    check_anyone(store.len(), *r)?;
    refuse_if(r.service.serving != 1, Refusal::OutOfService)?;
    let reason = Reason::try_from(reason)?;
    r.service = after_failure(r.service, r.date, reason);
    discard(r, store);
    Ok(())
}

// A failure of the billing meter: 1 fault, 2 loss, 3 verification interval over, 4 taken down; C gives the reason as a number,
// which 31 judges.
#[tactic(auto, using(model::proofs::Laws::call_does), unfolding(model::proofs::Laws::call_definitions))]
pub fn fail(r: Record, store: &mut [u32], reason: u32) -> Answer
    ensures { Does (state r store.old) (report (failure reason)) result store.new [] }
{
    let mut after = r;
    let outcome = try_fail(&mut after, store, reason);
    answer_behind(outcome, after)
}

#[tactic(auto, unfolding(model::proofs::Laws::call_definitions))]
fn try_admit(r: &mut Record, store: &[u32]) -> Result<(), Refusal>
    ensures { Gives (state r.old store.now) (report admission) result (state r.new store.now) }
{
    check_anyone(store.len(), *r)?;
    refuse_if(r.service.serving == 1, Refusal::InService)?;
    r.service.serving = 1;
    Ok(())
}

// The billing meter is back in service.
#[tactic(auto, using(model::proofs::Laws::call_does), unfolding(model::proofs::Laws::call_definitions))]
pub fn admit(r: Record, store: &[u32]) -> Answer
    ensures { Does (state r store.now) (report admission) result store.now [] }
{
    let mut after = r;
    let outcome = try_admit(&mut after, store);
    answer_behind(outcome, after)
}

#[tactic(auto, using(validity::proofs::Laws::denials_most), unfolding(model::proofs::Laws::call_definitions))]
fn try_deny(r: &mut Record, store: &mut [u32]) -> Result<(), Refusal>
    ensures { Gives (state r.old store.old) (report denial) result (state r.new store.new) }
{
    check_anyone(store.len(), *r)?;
    refuse_if(r.service.denials == 2, Refusal::TwoDenials)?;
    let denials = r.service.denials + 1;
    r.service.denials = denials;
    if denials == 2 {
        discard(r, store);
    }
    Ok(())
}

// Access to the meter was denied once more. The second denial discards this month's billing reading.
#[tactic(auto, using(model::proofs::Laws::call_does), unfolding(model::proofs::Laws::call_definitions))]
pub fn deny(r: Record, store: &mut [u32]) -> Answer
    ensures { Does (state r store.old) (report denial) result store.new [] }
{
    let mut after = r;
    let outcome = try_deny(&mut after, store);
    answer_behind(outcome, after)
}

// It is as `try_admit` with another test, another refusal and another field: with these three as parameters one function is
// longer than both.
#[tactic(auto, unfolding(model::proofs::Laws::call_definitions))]
fn try_permit(r: &mut Record, store: &[u32]) -> Result<(), Refusal>
    ensures { Gives (state r.old store.now) (report permission) result (state r.new store.now) }
{
    check_anyone(store.len(), *r)?;
    refuse_if(r.service.denials == 0, Refusal::NoDenial)?;
    r.service.denials = 0;
    Ok(())
}

// Access to the meter is given again: no denial counts any more.
#[tactic(auto, using(model::proofs::Laws::call_does), unfolding(model::proofs::Laws::call_definitions))]
pub fn permit(r: Record, store: &[u32]) -> Answer
    ensures { Does (state r store.now) (report permission) result store.now [] }
{
    let mut after = r;
    let outcome = try_permit(&mut after, store);
    answer_behind(outcome, after)
}
