// A season's files: each added to the totals of those before it.
#![tactic(auto)]

ghost use Rattle.std.specs.Prelude.{◌≡◌};
ghost use Rattle.rules.specs.File.{count_in};
ghost use Rattle.deck.specs.Outcome.{Headed};
ghost use Rattle.totals.specs.Plus.{systems_plus, file_plus};
ghost use Rattle.totals.specs.Room.{answers_before, Room, Open};

use deck::Head;
use totals::Totals;

// The answers of a deck's systems, each rated once.
fn plus_systems(totals: Totals, file: &[u8], head: Head) -> Totals
    requires headed { Headed file.now head }
    requires room { Room answers_before totals }
    ensures { result ≡ systems_plus totals file.now (count_in file.now) }
{
    let unit = units::whole(units::is_decimal(head.version));
    let mut sum = totals;
    for s in 0..head.systems {
        let system = deck::system_in(file, head, s);
        let answer = systems::rate(file, head, s);
        sum = totals::plus_system(sum, s as u64 + 1, unit, system.rule.kind, answer);
    }
    sum
}

// One file more: a deck, or a refused one.
pub fn plus_file(totals: Totals, file: &[u8]) -> Totals
    requires { Open totals }
    ensures { result ≡ file_plus totals file.now }
{
    match deck::open(file) {
        Ok(head) => {
            let decks = totals.decks + 1;
            plus_systems(Totals { decks, ..totals }, file, head)
        }
        Err(refusal) => Totals {
            refused: totals.refused + 1,
            number: refusal.number(),
            ..totals
        },
    }
}
