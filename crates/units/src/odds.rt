// The rounded step over a whole row of values, with one component's numbers for all of it. A division works one value
// at a time; a row multiplies by P's share of the unit instead, which the compiler does for two values at once. It is
// the same step: its contract is `round_down`'s and `round_up`'s.
ghost use Rattle.std.specs.Prelude.{◌≡◌, true, false, ◌≤◌};
ghost use Rattle.rules.specs.Figure.{rounded, mixed};
ghost use Rattle.units.specs.Step.{whole};
ghost use Rattle.units.specs.Odds.{Mixable, Prepared, Values, mixed_shares};

use crate::share::{DIGIT, UPPER_PARTS};
use crate::{Failure, Survival, SurvivalShare};

// What rounds up: all parts but 2^32, more than rounding adds to a share of both values and no more than a part of the
// unit.
const ROUND_UP: u64 = 4611686014132420608;

// P and Q, and P's share.
#[derive(Clone, Copy)]
pub struct Odds {
    pub p: Survival,
    pub q: Failure,
    pub share: SurvivalShare,
}

// A component's numbers for a row.
pub fn prepare(decimal: bool, p: Survival) -> Odds
    requires { p.0 ≤ whole decimal }
    ensures prepared { Prepared (whole decimal) result }
    ensures same { result.p.0 ≡ p.0 }
{
    let q = p.failure(decimal);
    let share = p.share(crate::whole(decimal));
    Odds { p, q, share }
}

impl Odds {
    // The mix by P's share, with `round` parts more: P works + Q fails is P (works + unit - fails) + unit (fails - P),
    // so that P's share of how far the two values are apart does for both.
    fn shared(self, unit: u64, round: u64, works: u64, fails: u64) -> u64
        requires { Mixable unit self round works fails }
        ensures { result ≡ mixed_shares unit self round works fails }
    {
        let share = self.share.0;
        let apart = crate::narrow(works + unit - fails);
        let lower = share % DIGIT * apart + round;
        (share / DIGIT * apart + lower / DIGIT) / UPPER_PARTS + fails - self.p.0
    }

    // The mix over the unit, rounded down.
    pub fn down(self, unit: u64, works: u64, fails: u64) -> u64
        requires { Prepared unit self × Values unit works fails }
        ensures { result ≡ rounded false unit (mixed unit self.p.0 works fails) }
    {
        if crate::by_shares(unit) {
            return self.shared(unit, 0, works, fails);
        }
        let left = crate::narrow(works);
        let right = crate::narrow(fails);
        crate::round_down(unit, self.p, self.q, left, right)
    }

    // The same, rounded up.
    pub fn up(self, unit: u64, works: u64, fails: u64) -> u64
        requires { Prepared unit self × Values unit works fails }
        ensures { result ≡ rounded true unit (mixed unit self.p.0 works fails) }
    {
        if crate::by_shares(unit) {
            return self.shared(unit, ROUND_UP, works, fails);
        }
        let left = crate::narrow(works);
        let right = crate::narrow(fails);
        crate::round_up(unit, self.p, self.q, left, right)
    }
}
