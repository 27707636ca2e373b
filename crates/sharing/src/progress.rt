// A sharing under way, from hour to hour.
ghost use Rattle.std.specs.Prelude.{◌≡◌, ◌+◌, ◌-◌, ◌*◌, ◌≤◌};
ghost use Rattle.units.specs.Volumes.{greatest_volume_read};
ghost use Rattle.sharing.specs.Shares.{portion};
ghost use Rattle.sharing.specs.Limits.{QuotientFits};

// A sharing under way: the volume V, the sum S of all weights, and of both what the hours so far have. The quotient is rounded half up
// by one division, of twice the product and S by twice S. That dividend is carried, since working it out in each hour takes longer
// (decision 117). `passed` is there for what the contracts say; no answer is worked out from it.
#[derive(Clone, Copy)]
pub(crate) struct Progress {
    pub volume: u64,
    pub whole: u64,
    pub passed: u64,
    pub dividend: u64,
    pub done: u64,
    pub ghost fits: { QuotientFits volume passed whole },
    pub ghost carried: { dividend ≡ 2 * volume * passed + whole },
    pub ghost is: { done ≡ portion volume passed whole },
}

impl Progress {
    // A sharing before its first hour, by weights that sum to s.
    #[tactic(auto, using(crate::proofs::Laws::portion_none))]
    pub(crate) fn start(volume: u64, whole: u64) -> Self
        requires { QuotientFits volume 0 whole }
        ensures volume { result.volume ≡ volume }
        ensures whole { result.whole ≡ whole }
        ensures passed { result.passed ≡ 0 }
    {
        Progress {
            volume,
            whole,
            passed: 0,
            dividend: whole,
            done: 0,
        }
    }

    // One hour on, of weight w: what the hour gets. An hour of weight 0 needs no division. What it gets fits, as the contract shows;
    // `try_from` would bring a case that there is not.
    #[tactic(auto, using(crate::proofs::Turns::next_fits, crate::proofs::Laws::portion_on, crate::proofs::Laws::portion_up, crate::proofs::Laws::portion_most))]
    pub(crate) fn share(&mut self, w: u64) -> u32
        requires { self.old.passed + w ≤ self.old.whole }
        ensures volume { self.new.volume ≡ self.old.volume }
        ensures whole { self.new.whole ≡ self.old.whole }
        ensures passed { self.new.passed ≡ self.old.passed + w }
        ensures gets { result
            ≡ portion self.old.volume (self.old.passed + w) self.old.whole - portion self.old.volume self.old.passed self.old.whole }
        ensures small { result ≤ greatest_volume_read }
    {
        let before = self.done;
        if w != 0 {
            self.passed += w;
            self.dividend += 2 * self.volume * w;
            self.done = self.dividend / (2 * self.whole);
        }
        (self.done - before) as u32
    }
}
