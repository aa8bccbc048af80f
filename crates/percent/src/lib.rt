// Figures in percent, with six digits after the point: what is put for a range encloses what the range does.
#![tactic(auto)]

ghost use Rattle.std.specs.Prelude.{◌≡◌, ◌+◌, ◌≤◌, length};
ghost use Rattle.rules.specs.State.{S};
ghost use Rattle.units.specs.Step.{whole};
ghost use Rattle.text.specs.Added.{Added};
ghost use Rattle.percent.specs.Percent.{point_digits, percent_of, last_digits, percent_text, percent_room, range_text};
ghost use Rattle.percent.specs.Percent.{range_room};

const MILLION: u64 = 1000000;

// The whole, in millionths of a percent.
const WHOLE: u64 = 100 * MILLION;

// The digits after the point.
const POINT_DIGITS: usize = 6;

const ZERO: u8 = 48;

// A figure in millionths of a percent, rounded down or up.
fn percent_of(decimal: bool, up: bool, figure: u64) -> u64
    requires { figure ≤ S }
    ensures { result ≡ percent_of (whole decimal) up figure }
{
    let unit = units::whole(decimal);
    if up {
        return units::over(unit, figure * WHOLE + (unit - 1));
    }
    units::over(unit, figure * WHOLE)
}

// A number's last six digits, zeros in front where it has fewer.
fn last_digits(n: u64) -> [u8; POINT_DIGITS]
    ensures { result ≡ last_digits point_digits n }
{
    let mut digits = [0u8; POINT_DIGITS];
    let mut left = n;
    let mut k = POINT_DIGITS;
    // by hand, since `zeros_lost` of must-fail asks what is left in the place of k
    'places: while k > 0 {
        k -= 1;
        digits[k] = ZERO + (left % 10) as u8;
        left = left / 10;
    }
    digits
}

// A name and so many millionths of a percent.
fn put_percent(name: &[u8], millionths: u64, out: &mut [u8], at: usize) -> usize
    requires { at + percent_room name.now ≤ length out.old }
    ensures { Added (percent_text name.now millionths) out.old at out.new result }
{
    let whole = text::put_named(name, millionths / MILLION, out, at);
    let point = text::put(out, whole, b".");
    let digits = last_digits(millionths);
    let end = text::put(out, point, &digits);
    text::put(out, end, b"%")
}

// ` L% to H%`, of low and high.
pub fn put_range(decimal: bool, low: u64, high: u64, out: &mut [u8], at: usize) -> usize
    requires within { (low ≤ S) × (high ≤ S) }
    requires room { at + range_room ≤ length out.old }
    ensures { Added (range_text (whole decimal) low high) out.old at out.new result }
{
    let middle = put_percent(b" ", percent_of(decimal, false, low), out, at);
    put_percent(b" to ", percent_of(decimal, true, high), out, middle)
}
