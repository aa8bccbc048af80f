// A number's share of a unit: what it is of the unit, in parts of 2^62 and rounded up. A value times a share is the
// product over the unit, with no division.
ghost use Rattle.std.specs.Prelude.{◌≡◌, ◌*◌, ◌/◌, ◌≤◌};
ghost use Rattle.rules.specs.State.{S};
ghost use Rattle.units.specs.Share.{Dealt, Share, share_parts, word_parts};
ghost use Rattle.units.specs.Step.{AnyUnit};

// A share has two digits of 32 bits, the upper one in parts of 2^30.
pub const DIGIT: u64 = 4294967296;

pub const UPPER_PARTS: u64 = 1073741824;

// What brings parts of 2^62 to parts of 2^64.
const FOUR: u64 = 4;

// A number's share.
fn share(unit: u64, x: u64) -> u64
    requires { AnyUnit unit × (x ≤ unit) }
    ensures { Share unit x result }
{
    let upper = crate::over(unit, x * DIGIT);
    let left = x * DIGIT - upper * unit;
    upper * UPPER_PARTS + crate::over(unit, left * UPPER_PARTS) + 1
}

// The same, where a step over the unit is worked by shares.
pub fn dealt(unit: u64, x: u64) -> u64
    requires { AnyUnit unit × (x ≤ unit) }
    ensures { Dealt unit x result }
{
    if crate::by_shares(unit) {
        return share(unit, x);
    }
    0
}

// The upper half of a product of 128 bits, by digits: the compiler sees that it is one multiplication.
fn upper_half(x: u64, y: u64) -> u64
    ensures { result ≡ x * y / word_parts }
{
    let x1 = x / DIGIT;
    let x0 = x % DIGIT;
    let y1 = y / DIGIT;
    let y0 = y % DIGIT;
    let lower = x1 * y0 + x0 * y0 / DIGIT;
    let middle = x0 * y1 + lower % DIGIT;
    x1 * y1 + lower / DIGIT + middle / DIGIT
}

// A value times a share, rounded down.
pub fn times(share: u64, x: u64) -> u64
    requires { x ≤ S }
    ensures { result ≡ share * x / share_parts }
{
    upper_half(share, x * FOUR)
}
