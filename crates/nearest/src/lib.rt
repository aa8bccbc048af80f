// A fraction of a unit as a 64-bit float: the double nearest below it, or nearest above. Its 53 digits are worked out
// as a whole number, and its power of two is its exponent's field, so that nothing is rounded but the whole number.
#![tactic(auto)]

ghost use Rattle.std.specs.Prelude.{◌≡◌, ◌*◌, ◌^◌, ◌<◌};
ghost use Rattle.rules.specs.Figure.{rounded};
ghost use Rattle.nearest.specs.Nearest.{Nearest};
ghost use Rattle.nearest.specs.Raised.{Within, Raises, Scaled};

// 2^26: the 52 digits behind a double's first are worked out by two divisions, each shifted so far.
const SHIFT: u64 = 67108864;

// 2^52: a double's first digit, and where its exponent's field begins.
const FIRST: u64 = 4503599627370496;

// The exponent's field of a double that is its digits over 2^52, less one for the first digit.
const FIELD: u64 = 1022;

// A number doubled until it is no less than the unit, and what the doublings leave of the field.
#[derive(Clone, Copy)]
struct Raised {
    near: u64,
    field: u64,
}

fn raise(unit: u64, x: u64) -> Raised
    requires within { Within unit x }
    requires positive { 0 < x }
    ensures { Raises unit x result }
{
    let mut near = x;
    let mut field = FIELD;
    while near < unit {
        near *= 2;
        field -= 1;
    }
    Raised { near, field }
}

// The 53 digits of near over the unit, rounded down or up.
fn digits(up: bool, unit: u64, near: u64) -> u64
    requires { Scaled unit near }
    ensures { result ≡ rounded up unit (near * 2 ^ 52) }
{
    let high = near * SHIFT;
    let low = (high % unit) * SHIFT;
    let whole = (high / unit) * SHIFT + low / unit;
    if up {
        if low % unit != 0 {
            return whole + 1;
        }
    }
    whole
}

// The double nearest below x over the unit, or nearest above. Digits that are rounded up to 2^53 carry into the field.
pub fn nearest(up: bool, unit: u64, x: u64) -> f64
    requires { Within unit x }
    ensures { Nearest up unit x result }
{
    if x == 0 {
        return 0.0;
    }
    let raised = raise(unit, x);
    let whole = digits(up, unit, raised.near);
    f64::from_bits(raised.field * FIRST + whole)
}
