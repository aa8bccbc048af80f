// The unit, a component's two numbers, and the one rounded step that every figure is made of, for any unit from 1 to
// 2^30.
#![tactic(auto)]

pub mod debt; // debt.rt: the step of a component that must work, by its shares
pub mod odds; // odds.rt: the step over a whole row of values, by P's share
mod share; // share.rt: a number's share of the unit

ghost use Rattle.std.specs.Prelude.{◌≡◌, true, false, ◌*◌, ◌/◌, ◌<◌, ◌≤◌};
ghost use Rattle.rules.specs.State.{S, unit_of, failure};
ghost use Rattle.rules.specs.Figure.{rounded, mixed};
ghost use Rattle.units.specs.Share.{Dealt, by_shares, digit};
ghost use Rattle.units.specs.Step.{AnyUnit, Parts, whole};

use rules::version::{BINARY, DECIMAL, FIRST};

// Has a version the decimal unit? Which unit survival numbers are parts of is handed on as a plain Bool: the compiler
// then knows it at each call, which it does not for a struct.
pub fn is_decimal(version: u64) -> bool
    ensures { whole result ≡ unit_of version }
{
    version != FIRST
}

// The unit as a number.
pub fn whole(decimal: bool) -> u64
    ensures { result ≡ whole decimal }
{
    if decimal { DECIMAL } else { BINARY }
}

// A number over a unit, rounded down. The two units that files have divide by a constant each: a shift, or a
// multiplication, and no division.
pub fn over(unit: u64, x: u64) -> u64
    requires { 1 ≤ unit }
    ensures { result ≡ x / unit }
{
    if unit == DECIMAL {
        return x / DECIMAL;
    }
    if unit == BINARY {
        return x / BINARY;
    }
    x / unit
}

// Is a step worked by shares where that is the shorter way? Over 2^30 a quotient is a shift, and the plain step is.
pub fn by_shares(unit: u64) -> bool
    ensures { result ≡ by_shares unit }
{
    unit != BINARY
}

// P and Q stay apart: a survival number is never handed over where a failure number is read.
#[derive(Clone, Copy)]
pub struct Survival(pub u64);

#[derive(Clone, Copy)]
pub struct Failure(pub u64);

// And so do their shares of the unit.
#[derive(Clone, Copy)]
pub struct SurvivalShare(pub u64);

#[derive(Clone, Copy)]
pub struct FailureShare(pub u64);

impl Survival {
    // Q = S - P. It fits 32 bits, and the compiler is shown so.
    pub fn failure(self, decimal: bool) -> Failure
        requires { self.0 ≤ whole decimal }
        ensures { result.0 ≡ failure (whole decimal) self.0 }
    {
        Failure(narrow(whole(decimal) - self.0))
    }

    // P's share.
    pub fn share(self, unit: u64) -> SurvivalShare
        requires { AnyUnit unit × (self.0 ≤ unit) }
        ensures { Dealt unit self.0 result.0 }
    {
        SurvivalShare(share::dealt(unit, self.0))
    }
}

impl Failure {
    // Q's share.
    pub fn share(self, unit: u64) -> FailureShare
        requires { AnyUnit unit × (self.0 ≤ unit) }
        ensures { Dealt unit self.0 result.0 }
    {
        FailureShare(share::dealt(unit, self.0))
    }
}

// A number that fits 32 bits, of which the compiler then sees so: it multiplies two of them at a time.
pub fn narrow(x: u64) -> u64
    requires { x < digit }
    ensures { result ≡ x }
{
    u64::from(x as u32)
}

// p times the value where the component works, plus q times the value where it fails.
fn mix(unit: u64, p: Survival, q: Failure, works: u64, fails: u64) -> u64
    requires { Parts unit p.0 q.0 works fails }
    ensures mixed { result ≡ mixed unit p.0 works fails }
    ensures fits { result ≤ S * S }
{
    p.0 * works + q.0 * fails
}

// The mix over the unit, rounded down.
pub fn round_down(unit: u64, p: Survival, q: Failure, works: u64, fails: u64) -> u64
    requires { Parts unit p.0 q.0 works fails }
    ensures { result ≡ rounded false unit (mixed unit p.0 works fails) }
{
    over(unit, mix(unit, p, q, works, fails))
}

// The same, rounded up.
pub fn round_up(unit: u64, p: Survival, q: Failure, works: u64, fails: u64) -> u64
    requires { Parts unit p.0 q.0 works fails }
    ensures { result ≡ rounded true unit (mixed unit p.0 works fails) }
{
    over(unit, mix(unit, p, q, works, fails) + (unit - 1))
}
