// P, the power of a delivery point on its three bases, and the cable formula.
#![tactic(auto)]

ghost use Rattle.std.specs.Prelude.{◌≡◌, ◌&&◌, leb};
ghost use Rattle.std.specs.List.{list_all};
ghost use Rattle.power.specs.Power.{agreed_fits, list_fits, shared_power, power_in, basis_fits, power_on};

mod basis;
mod formula;

pub use basis::{Basis, UnknownBasis};
pub use formula::cable_formula;
use sharing::share_power;
use units::Kw;

// A cable: I in amperes, U in volts, c in thousandths of cos φ, which is 0 where it is missing, and its phases. C gives the
// numbers, so they may be any.
#[repr(C)]
#[derive(Clone, Copy, Debug, PartialEq, Eq, Default)]
pub struct Cable {
    pub amperes: u32,
    pub volts: u32,
    pub cosine: u32,
    pub phases: u32,
}

// Whether an agreed power is within its limits.
#[tactic(auto, unfolding(crate::specs::Power::agreed_fits))]
pub fn agreed_fits(p: Kw) -> bool
    ensures { result ≡ agreed_fits p.0 }
{
    (1..=1000000).contains(&p.0)
}

// P on basis 1, the agreed power, and 0 where it is outside its limits, as the definition of P has it on every basis.
fn agreed_power(p: Kw) -> Kw
    ensures { result.0 ≡ power_in (agreed_fits p.0) p.0 }
{
    if agreed_fits(p) { p } else { Kw(0) }
}

// Whether each current is within its limits. The flag has no early return, so that the loop takes several currents at a time.
fn currents_fit(currents: &[u32]) -> bool
    ensures { result ≡ list_all (λ x. leb 1 x && leb x 2000) currents.now }
{
    let mut ok = true;
    for x in currents {
        ok &= (1..=2000).contains(x);
    }
    ok
}

// Whether a list of currents and a place in it are within their limits, so that a power can be shared by them.
pub fn list_fits(currents: &[u32], place: usize) -> bool
    ensures { result ≡ list_fits currents.now place }
{
    let n = currents.len();
    (1..=64).contains(&n) & (place < n) & currents_fit(currents)
}

// P on basis 2: what one place gets of a power agreed for all points of a list, and 0 where an argument is outside its
// limits, as the definition of P has it on every basis. C gives power, list and place each by itself.
#[tactic(auto, using(crate::proofs::Laws::shared_in))]
pub fn shared_power(agreed: Kw, currents: &[u32], place: usize) -> Kw
    ensures { result.0 ≡ power_in (agreed_fits agreed.0 && list_fits currents.now place) (shared_power agreed.0 currents.now place) }
{
    if agreed_fits(agreed) & list_fits(currents, place) {
        share_power(agreed, currents, place)
    } else {
        Kw(0)
    }
}

// P on any basis, and 0 where there is no such basis or what it uses is outside its limits. What the basis does not use
// may be anything. The basis is the number that C gives.
#[tactic(auto, unfolding(crate::specs::Power::basis_fits, crate::specs::Power::power_on))]
pub fn power_of(basis: u32, agreed: Kw, currents: &[u32], place: usize, cable: Cable) -> Kw
    ensures { result.0
        ≡ power_in (basis_fits basis agreed.0 currents.now place cable) (power_on basis agreed.0 currents.now place cable) }
{
    match Basis::try_from(basis) {
        Ok(Basis::Agreed) => agreed_power(agreed),
        Ok(Basis::Shared) => shared_power(agreed, currents, place),
        Ok(Basis::Formula) => cable.power(),
        Err(UnknownBasis(_)) => Kw(0),
    }
}
