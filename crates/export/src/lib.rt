// The figures that go out: low and high of a version 1 deck's system, each divided by 2^30, or the refusal.
#![tactic(auto)]

ghost use Rattle.std.specs.Prelude.{◌≤◌};
ghost use Rattle.rules.specs.State.{S};
ghost use Rattle.rules.specs.Within.{WithinUnit};
ghost use Rattle.doubles.specs.Floats.{Over};
ghost use Rattle.export.specs.Outcome.{Both, Tells, Exported};

use rules::Rating;

// The two ends of a figure, as floats.
#[derive(Clone, Copy)]
pub struct Ends {
    pub low: f64,
    pub high: f64,
}

// A pair of floats, or the refusal with no floats.
#[derive(Clone, Copy)]
pub enum Chance {
    Range(Ends),
    Refused(u64),
}

// Low and high, each divided by 2^30.
fn ends_of(low: u64, high: u64) -> Ends
    requires { (low ≤ S) × (high ≤ S) }
    ensures { Both Over Over low high result }
{
    let lower = doubles::divided(low);
    let upper = doubles::divided(high);
    Ends {
        low: lower,
        high: upper,
    }
}

// Figures as one answer for the planning office.
fn told(rating: Rating) -> Chance
    requires { WithinUnit rating }
    ensures { Tells Over Over rating result }
{
    match rating {
        Rating::Range { low, high } => Chance::Range(ends_of(low, high)),
        Rating::Refused(number) => Chance::Refused(number),
    }
}

// The chance of a file's system, counted from 1. A file of another version than 1 is refused 11, in 11's place.
pub fn chance_of(file: &[u8], system: u64) -> Chance
    ensures { Exported file.now system result }
{
    if let Err(other) = deck::other_refusal(file) {
        return Chance::Refused(other.number());
    }
    told(systems::rate_file(file, system))
}
