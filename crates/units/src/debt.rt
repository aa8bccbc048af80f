// The rounded step of a component that must work: nothing is left of the value where it fails. One value after another
// is worked so, each by other numbers, whose shares are made once and kept. It is the same step: its contract is
// `round_down`'s and `round_up`'s with 0 where the component fails.
ghost use Rattle.std.specs.Prelude.{◌≡◌, true, false};
ghost use Rattle.rules.specs.Figure.{rounded, mixed};
ghost use Rattle.units.specs.Step.{Parts};
ghost use Rattle.units.specs.Debt.{Numbers, Shared};

use crate::{Failure, FailureShare, Survival, SurvivalShare, share};

// The shares of a component's P and Q.
#[derive(Clone, Copy)]
pub struct Shares {
    pub p: SurvivalShare,
    pub q: FailureShare,
}

// Both, made.
pub fn deal(unit: u64, p: Survival, q: Failure) -> Shares
    requires { Numbers unit p.0 q.0 }
    ensures { Shared unit p.0 result }
{
    let of_p = p.share(unit);
    let of_q = q.share(unit);
    Shares { p: of_p, q: of_q }
}

impl Shares {
    // The mix over the unit, rounded down: P's share of the value.
    pub fn down(self, unit: u64, p: Survival, q: Failure, works: u64) -> u64
        requires { Parts unit p.0 q.0 works 0 × Shared unit p.0 self }
        ensures { result ≡ rounded false unit (mixed unit p.0 works 0) }
    {
        if crate::by_shares(unit) {
            return share::times(self.p.0, works);
        }
        crate::round_down(unit, p, q, works, 0)
    }

    // The same, rounded up: what Q's share leaves of the value.
    pub fn up(self, unit: u64, p: Survival, q: Failure, works: u64) -> u64
        requires { Parts unit p.0 q.0 works 0 × Shared unit p.0 self }
        ensures { result ≡ rounded true unit (mixed unit p.0 works 0) }
    {
        if crate::by_shares(unit) {
            return works - share::times(self.q.0, works);
        }
        crate::round_up(unit, p, q, works, 0)
    }
}
