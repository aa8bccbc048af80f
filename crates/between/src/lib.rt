// The chance of a file's system between two doubles: the one nearest below low and the one nearest above high, each
// over the file's unit, or the refusal. For files of every version.
#![tactic(auto)]

ghost use Rattle.std.specs.Prelude.{false, true};
ghost use Rattle.nearest.specs.Nearest.{Nearest};
ghost use Rattle.nearest.specs.Raised.{Within};
ghost use Rattle.export.specs.Outcome.{Both, Tells};
ghost use Rattle.between.specs.Outcome.{InUnit, Enclosed};

use export::{Chance, Ends};
use rules::Rating;

// The double nearest below low over the unit, and the one nearest above high.
fn ends_of(unit: u64, low: u64, high: u64) -> Ends
    requires { Within unit low × Within unit high }
    ensures { Both (Nearest false unit) (Nearest true unit) low high result }
{
    let lower = nearest::nearest(false, unit, low);
    let upper = nearest::nearest(true, unit, high);
    Ends {
        low: lower,
        high: upper,
    }
}

// Figures in parts of the unit as one answer for the planning office.
fn told(unit: u64, rating: Rating) -> Chance
    requires { InUnit unit rating }
    ensures { Tells (Nearest false unit) (Nearest true unit) rating result }
{
    match rating {
        Rating::Range { low, high } => Chance::Range(ends_of(unit, low, high)),
        Rating::Refused(number) => Chance::Refused(number),
    }
}

// The chance of a file's system, counted from 1, refused as the loading computer's call has it.
pub fn chance_between(file: &[u8], system: u64) -> Chance
    ensures { Enclosed file.now system result }
{
    let opened = deck::open(file);
    match opened {
        Ok(head) => {
            let unit = units::whole(units::is_decimal(head.version));
            told(unit, systems::rate_opened(file, opened, system))
        }
        Err(refused) => Chance::Refused(refused.number()),
    }
}
