// What is drawn of a system: its fans and windows, and what each fan is worth.
#![tactic(auto)]

ghost use Rattle.std.specs.Prelude.{◌≤◌};
ghost use Rattle.rules.specs.State.{S};
ghost use Rattle.drawn.specs.Drawn.{most_drawn, Drawable};

use rules::{Rule, System, kind, limit, version};
use text::lines;

// The deck's fans, the stretch, how long the rule's windows are (0 where it has none), and whether the stretch is a
// ring.
#[derive(Clone, Copy)]
pub struct Shape {
    pub fans: u64,
    pub from: u64,
    pub upto: u64,
    pub window: u64,
    pub ring: bool,
}

// The two ends of each fan's worth, the first fan's at 0; a fan outside the stretch has none, and 0 stands there.
#[derive(Clone, Copy)]
pub struct Worths {
    pub lower: [i64; limit::FANS],
    pub upper: [i64; limit::FANS],
}

// A number within bounds; those of a system that is answered are.
pub fn bounded(least: u64, x: u64, most: u64) -> u64
    requires { least ≤ most }
    ensures { (least ≤ result) × (result ≤ most) }
{
    if x < least {
        return least;
    }
    if x > most {
        return most;
    }
    x
}

// How long a rule's windows are: kinds 4 and 5 have it as their first number, kinds 6 to 8 as their second.
fn window_of(rule: Rule) -> u64
    ensures { result ≤ most_drawn }
{
    let kind = rule.kind;
    let width = match kind {
        kind::ROW | kind::ROW_ROUND => rule.first,
        kind::NEAR | kind::NEAR_ROUND | kind::LACKING => rule.second,
        _ => 0,
    };
    bounded(0, width, limit::FANS as u64)
}

// What is drawn of a system of a deck of so many fans. A line that is shorter than its window is one window.
pub fn shape_of(fans: u64, system: System) -> Shape
    ensures { Drawable result }
{
    let rule = system.rule;
    let n = bounded(1, fans, limit::FANS as u64);
    let from = bounded(1, system.a, n);
    let upto = bounded(from, system.b, n);
    let window = window_of(rule);
    let size = upto + 1 - from;
    let ring = rule.kind == kind::ROW_ROUND || rule.kind == kind::NEAR_ROUND;
    Shape {
        fans: n,
        from,
        upto,
        window: bounded(0, window, size),
        ring,
    }
}

// The largest of so many ends, without their signs.
fn largest_in(ends: [i64; limit::FANS]) -> u64 {
    ends.iter()
        .map(|end| lines::absolute(*end))
        .max()
        .unwrap_or(0)
}

// The largest of all ends: what the tallest bar stands for.
pub fn largest_of(worths: Worths) -> u64
    ensures { result ≤ S }
{
    let lower = worths.lower;
    let upper = worths.upper;
    bounded(0, largest_in(lower).max(largest_in(upper)), version::BINARY)
}
