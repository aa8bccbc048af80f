// Why a system of a deck file is refused.
ghost use Rattle.std.specs.Prelude.{◌≡◌, false, ◌≤◌, length, get_or};
ghost use Rattle.rules.specs.Refusal.{bad_stretch, most, most_boards};
ghost use Rattle.rules.specs.File.{deck_in, system_in};
ghost use Rattle.deck.specs.Outcome.{Placed};
ghost use Rattle.advice.specs.System.{above_why, rated_why, why_of, system_why, fan_why};

use crate::cause::Cause;
use crate::why::{self, Why};
use deck::Head;
use rules::{System, kind, refusal};

// The number at a place of a list; 0 behind its end.
fn number_at(numbers: &[u32], i: usize) -> u64
    ensures { result ≡ get_or numbers.now i 0 }
{
    if i < numbers.len() {
        return numbers[i] as u64;
    }
    0
}

// A survival number above the unit: the first such fan of the stretch, or else the first such board.
fn above_why(unit: u64, a: u64, b: u64, survival: &[u32], switchboards: &[u32]) -> Why
    requires stretch { bad_stretch a b (length survival.now) ≡ false }
    requires few { (length survival.now ≤ most) × (length switchboards.now ≤ most_boards) }
    ensures { result ≡ above_why unit a b survival.now switchboards.now }
{
    let upto = b as usize;
    let i = why::above_from(survival, a as usize - 1, upto, unit);
    if i < upto {
        return why::because(
            Cause::FanAbove,
            i as u64 + 1,
            number_at(survival, i),
            unit,
            0,
        );
    }
    let j = why::above_from(switchboards, 0, switchboards.len(), unit);
    why::because(
        Cause::BoardAbove,
        j as u64 + 1,
        number_at(switchboards, j),
        unit,
        0,
    )
}

// Of a system whose stretch is on the deck.
fn rated_why(
    version: u64,
    system: System,
    number: u64,
    survival: &[u32],
    weights: &[u16],
    switchboards: &[u32],
) -> Why
    requires stretch { bad_stretch system.a system.b (length survival.now) ≡ false }
    requires alike { length weights.now ≡ length survival.now }
    requires few { (length survival.now ≤ most) × (length switchboards.now ≤ most_boards) }
    ensures { let weighed = weights.now in
        result ≡ rated_why version system number survival.now weighed switchboards.now }
{
    let from = system.a as usize - 1;
    let upto = system.b as usize;
    if number == refusal::SURVIVAL {
        let unit = units::whole(units::is_decimal(version));
        return above_why(unit, system.a, system.b, survival, switchboards);
    }
    let weight = why::weight_from(weights, from, upto);
    if number == refusal::WEIGHTS {
        return why::because(Cause::TooHeavy, weight, 0, 0, 0);
    }
    let rule = system.rule;
    why::range_why(rule, (upto - from) as u64, weight)
}

// Of any system, over the deck's lists.
fn lists_why(
    version: u64,
    system: System,
    number: u64,
    survival: &[u32],
    weights: &[u16],
    switchboards: &[u32],
) -> Why
    requires alike { length weights.now ≡ length survival.now }
    requires few { (length survival.now ≤ most) × (length switchboards.now ≤ most_boards) }
    ensures { let weighed = weights.now in
        result ≡ why_of version system number survival.now weighed switchboards.now }
{
    let n = survival.len() as u64;
    if number == refusal::KIND {
        return why::because(Cause::NoSuchKind, system.rule.kind, kind::LAST, 0, 0);
    }
    if asked::stretch_out(system.a, system.b, n) {
        return why::because(Cause::NoStretch, system.a, system.b, n, n);
    }
    rated_why(version, system, number, survival, weights, switchboards)
}

// Why the system at a place of a file, counted from 0, is refused by a number.
pub fn system_why(file: &[u8], head: Head, s: usize, number: u64) -> Why
    requires { Placed file.now head s }
    ensures { result ≡ system_why (deck_in file.now) (system_in file.now s) number }
{
    let n = head.fans;
    let g = head.boards;
    let survival = deck::survival_in(file, head);
    let weights = deck::weights_in(file, head);
    let switchboards = deck::board_survival_in(file, head);
    let system = deck::system_in(file, head, s);
    lists_why(
        head.version,
        system,
        number,
        &survival[..n],
        &weights[..n],
        &switchboards[..g],
    )
}

// Why the worth of a fan to that system is refused by a number.
pub fn fan_why(file: &[u8], head: Head, s: usize, fan: u64, number: u64) -> Why
    requires { Placed file.now head s }
    ensures { result ≡ fan_why (deck_in file.now) (system_in file.now s) fan number }
{
    if number == refusal::FAN {
        let system = deck::system_in(file, head, s);
        return why::because(Cause::FanOutside, fan, system.a, system.b, 0);
    }
    system_why(file, head, s, number)
}
