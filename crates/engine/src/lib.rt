// The engine: low and high of a list that can be rated, worked in the lent table by the room of its kind.
//
// No room has an array of its own beside that table: rings work one lead, or one number of clean ones, at a time.
#![tactic(auto)]

ghost use Rattle.rules.specs.State.{beside_of};
ghost use Rattle.rules.specs.Figure.{figure};
ghost use Rattle.rules.specs.Accepted.{Ratable};
ghost use Rattle.units.specs.Step.{whole};
ghost use Rattle.places.specs.Cells.{Both, Kept};

use places::Ends;
use rules::{Rule, kind};

pub fn rate(
    decimal: bool,
    rule: Rule,
    survival: &[u32],
    weights: &[u16],
    more: &[u64],
    table: &mut [u64],
) -> Ends
    requires { Ratable (whole decimal) rule survival.now (beside_of rule weights.now more.now) table.old }
    ensures figure { let beside = beside_of rule weights.now more.now in
        Both (λ up. figure up (whole decimal) rule survival.now beside) result }
    ensures kept { Kept table.old table.new }
{
    let asked = rule.kind;
    match asked {
        kind::ROW => runs::line(decimal, rule.first as usize, survival, table),
        kind::ROW_ROUND => runs::ring(decimal, rule.first as usize, survival, table),
        kind::NEAR => gaps::line(decimal, rule.second as usize, survival, table),
        kind::NEAR_ROUND => gaps::ring(decimal, rule.second as usize, survival, table),
        kind::LACKING => windows::rate(decimal, rule.first, rule.second, more, survival, table),
        _ => rows::rate(decimal, rule, survival, weights, table),
    }
}
