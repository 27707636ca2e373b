// Which ground a month is closed on (document 01, 'Closing'): the first that fits, in the order of its table: 1, 2, 3, 4, 6,
// 5, 7, 8, 9. Each function takes what counts at a closing, and not a record or a store. The hour buffer stands beside it, since it
// is written while the rest is read; it is the caller's list, which number 44 has judged, so that it has 744 words is a clause.
#![tactic(auto)]

ghost use Rattle.std.specs.Prelude.{◌≡◌, true, ◌-◌, ◌*◌, ◌≤◌, ◌<◌, min, Some, length};
ghost use Rattle.units.specs.Volumes.{greatest_volume_read};
ghost use Rattle.power.specs.Power.{cable_fits};
ghost use Rattle.contract.specs.Contract.{power_of};
ghost use Rattle.sharing.specs.Shares.{stretched};
ghost use Rattle.rules.specs.Rules.{ground_six, by_contract, on_past, on_tested_past, on_control_past, on_control, rules};
ghost use Rattle.rules.specs.Right.{PastHoursFit};
ghost use Rattle.grounds.specs.Found.{OutcomeFound};
ghost use Rattle.first_ground.specs.Counts.{inputs_of};

mod counts;

use contract::Contract;
pub use counts::{Counts, Metered};
use grounds::hours::{as_past, as_read, by_past, by_peaks};
use grounds::{Found, ground_eight, ground_nine};
use marks::peak::peak_part;
use marks::{Survey, capacity_sum};
use rules::Ground;
use units::{Kw, Kwh};

// P of the contract.
#[tactic(auto, using(crate::proofs::Firsts::cable_power_is, crate::proofs::Firsts::agreed_power_is))]
fn point_power(c: Contract) -> Kw
    requires { c.basis ≡ 3 → cable_fits c.cable ≡ true }
    ensures { result.0 ≡ power_of c }
{
    if c.basis == 3 {
        return c.cable.power();
    }
    c.power
}

// The test of ground 6: n > 0, and A × d < n × C', so that no rounded capacity is compared. The cast of n is of a number that fits.
fn six_fits(volume: Kwh, power: Kw, survey: Survey, sum: Kwh) -> bool
    requires { (volume.0 ≤ greatest_volume_read) × (survey.peaks ≤ 744) × (survey.days ≤ 31) × (sum.0 ≤ 4294967295) }
    ensures { result ≡ ground_six (min volume.0 (survey.peaks * power.0)) survey.days survey.peaks sum.0 }
{
    let a = peak_part(volume, survey.peaks as u32, power);
    (0 < survey.peaks) & (a.0 * survey.days < survey.peaks * sum.0)
}

impl Counts<'_> {
    // P.
    pub fn power(&self) -> Kw
        ensures { result.0 ≡ power_of self.now.contract }
    {
        point_power(self.contract)
    }

    // A reading less N, and 0 where that is below 0: document 01's max(0, ..), which `saturating_sub` is.
    pub fn less_neighbour(&self, volume: Kwh) -> Kwh
        ensures { result.0 ≡ volume.0 - self.now.neighbour.0 }
    {
        Kwh(volume.0.saturating_sub(self.neighbour.0))
    }

    // Grounds 8 and 9: by the contract. The cast of T is of a number that fits.
    fn by_contract(&self, hours: &mut [u32]) -> Found
        requires { length hours.old ≡ 744 }
        ensures { OutcomeFound (by_contract (inputs_of self.now)) result hours.new }
    {
        let t = self.marks.len() as u32;
        if self.contract.basis == 3 {
            return ground_nine(self.contract.cable, t, hours);
        }
        ground_eight(self.contract.power, t, hours)
    }

    // Grounds 7 to 9: no control reading.
    fn on_past(&self, hours: &mut [u32]) -> Found
        requires { length hours.old ≡ 744 }
        ensures { OutcomeFound (on_past (inputs_of self.now) (inputs_of self.now).past) result hours.new }
    {
        let Some(past) = self.past else {
            return self.by_contract(hours);
        };
        if self.counted <= 2 {
            return as_past(Ground::Past, past, self.marks.len(), hours);
        }
        self.by_contract(hours)
    }

    // Grounds 5 and 6: R at least 3, and a past. Ground 4's hours go into the buffer first, since C' is taken over them; where the test
    // fails, ground 5 replaces them.
    fn on_tested_past(&self, v: Kwh, past: &[u32], hours: &mut [u32]) -> Found
        requires fits { (v.0 ≤ greatest_volume_read) × PastHoursFit (Some past.now) }
        requires room { length hours.old ≡ 744 }
        ensures { OutcomeFound (on_tested_past (inputs_of self.now) v.0 (stretched past.now (length self.now.marks.now))) result hours.new }
    {
        let p = self.power();
        let six = by_past(
            Ground::ControlByPastTested,
            v,
            past,
            self.marks.len(),
            hours,
        );
        if six_fits(v, p, self.survey, capacity_sum(self.marks, hours)) {
            return six;
        }
        by_peaks(Ground::ControlByPeaks, v, p, self.marks, hours)
    }

    // Grounds 4 to 6: the volume of an integral control meter, less N.
    fn on_control_past(&self, v: Kwh, hours: &mut [u32]) -> Found
        requires { (v.0 ≤ greatest_volume_read) × (length hours.old ≡ 744) }
        ensures { OutcomeFound (on_control_past (inputs_of self.now) v.0 (inputs_of self.now).past) result hours.new }
    {
        let Some(past) = self.past else {
            return by_peaks(Ground::ControlByPeaks, v, self.power(), self.marks, hours);
        };
        if self.counted <= 2 {
            return by_past(Ground::ControlByPast, v, past, self.marks.len(), hours);
        }
        self.on_tested_past(v, past, hours)
    }

    // Grounds 3 to 9: no billing reading.
    fn on_control(&self, hours: &mut [u32]) -> Found
        requires { length hours.old ≡ 744 }
        ensures { OutcomeFound (on_control (inputs_of self.now) (inputs_of self.now).control) result hours.new }
    {
        match self.control {
            Metered::Missing => self.on_past(hours),
            Metered::Hours(read) => as_read(Ground::ControlHours, read, hours),
            Metered::Volume(k) => self.on_control_past(self.less_neighbour(k), hours),
        }
    }

    // Grounds 1 to 9.
    pub fn first_ground(&self, hours: &mut [u32]) -> Found
        requires { length hours.old ≡ 744 }
        ensures { OutcomeFound (rules (inputs_of self.now)) result hours.new }
    {
        match self.billing {
            Metered::Missing => self.on_control(hours),
            Metered::Hours(read) => as_read(Ground::BillingHours, read, hours),
            Metered::Volume(b) => {
                by_peaks(
                    Ground::BillingVolume,
                    self.less_neighbour(b),
                    self.power(),
                    self.marks,
                    hours,
                )
            }
        }
    }
}
