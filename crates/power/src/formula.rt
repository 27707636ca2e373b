// The cable formula.
ghost use Rattle.std.specs.Prelude.{◌≡◌, cond, false, ◌&&◌, ◌≤◌, leb, MatchOption};
ghost use Rattle.power.specs.Power.{formula, cable_fits, formula_in, power_in};
ghost use Rattle.power.specs.Limits.{CableLimits};

use super::Cable;
use numbers::half_up;
use units::{Kw, Kwh};

// What C gets where there is no volume, since it has no Option.
const NO_VOLUME: u64 = u64::MAX;

impl Cable {
    // Whether the numbers are within their limits, so that the cable can stand for a power: the one place where these are tested.
    #[tactic(auto, unfolding(crate::specs::Power::cable_fits))]
    pub fn fits(self) -> bool
        ensures { result ≡ cable_fits self }
    {
        (1..=2000).contains(&self.amperes)
            & (1..=250000).contains(&self.volts)
            & (self.cosine <= 1000)
            & ((self.phases == 1) | (self.phases == 3))
    }

    // The formula within the limits, in which no product is too great: the one place where it is computed.
    #[tactic(auto, using(crate::proofs::Laws::product_most), unfolding(crate::specs::Power::formula))]
    fn formula(self, hours: u64) -> u64
        requires { CableLimits self × (hours ≤ 8760) }
        ensures { result ≡ formula self hours }
    {
        let counted = if self.cosine == 0 { 900 } else { self.cosine };
        let by = if self.phases == 1 { 1500000 } else { 500000 };
        half_up(
            u64::from(self.amperes) * u64::from(self.volts) * u64::from(counted) * hours,
            by,
        )
    }

    // The volume that the cable gives in some hours, where its numbers and the hours are within the limits.
    #[tactic(auto, using(crate::proofs::Laws::cable_limits))]
    fn volume_within(self, hours: u64) -> Option<u64>
        ensures { result ≡ cond (cable_fits self && leb hours 8760) (Some (formula self hours)) None }
    {
        if self.fits() & (hours <= 8760) {
            Some(self.formula(hours))
        } else {
            None
        }
    }

    // The volume that the cable gives in some hours, and 2^64 - 1 outside the limits, as the definition and C have it.
    #[tactic(auto, unfolding(crate::specs::Power::formula_in))]
    pub fn volume(self, hours: u32) -> Kwh
        ensures { result.0 ≡ formula_in self hours }
    {
        Kwh(self.volume_within(u64::from(hours)).unwrap_or(NO_VOLUME))
    }

    // P on basis 3, the formula at t = 1, and 0 where the cable is outside its limits: the definition of P is a number, as the field
    // of a contract is. The volume of an hour fits, as the contract shows; `try_from` would bring a case that there is not.
    #[tactic(auto, using(crate::proofs::Laws::formula_most))]
    pub fn power(self) -> Kw
        ensures { result.0 ≡ power_in (cable_fits self) (formula self 1) }
    {
        match self.volume_within(1) {
            Some(volume) => Kw(volume as u32),
            None => Kw(0),
        }
    }

    // The cable of these numbers, which C gives in 64 bits; one that passes 32 bits is outside the limits.
    #[tactic(auto, unfolding(crate::specs::Power::cable_fits))]
    fn narrow(amperes: u64, volts: u64, cosine: u64, phases: u64) -> Option<Self>
        ensures { MatchOption result
            (cable_fits (record { amperes = amperes; volts = volts; cosine = cosine; phases = phases }) ≡ false)
            (λ cable. record { amperes = amperes; volts = volts; cosine = cosine; phases = phases } ≡ cable) }
    {
        Some(Cable {
            amperes: u32::try_from(amperes).ok()?,
            volts: u32::try_from(volts).ok()?,
            cosine: u32::try_from(cosine).ok()?,
            phases: u32::try_from(phases).ok()?,
        })
    }
}

// The kWh that a cable gives in some hours, from plain numbers. Numbers outside the limits give 2^64 - 1, so that no caller
// takes the answer for a volume.
#[tactic(auto, unfolding(crate::specs::Power::formula_in))]
pub fn cable_formula(amperes: u64, volts: u64, cosine: u64, phases: u64, hours: u64) -> u64
    ensures { result ≡ formula_in (record { amperes = amperes; volts = volts; cosine = cosine; phases = phases }) hours }
{
    match Cable::narrow(amperes, volts, cosine, phases) {
        Some(cable) => cable.volume_within(hours).unwrap_or(NO_VOLUME),
        None => NO_VOLUME,
    }
}
