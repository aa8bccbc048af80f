// A system's chance: low and high in percent and in parts, drawn on the whole, and the gap between them on the most
// that it can be.
ghost use Rattle.std.specs.Prelude.{◌≤◌, length};
ghost use Rattle.rules.specs.State.{S};
ghost use Rattle.forms.specs.Within.{Within};

use crate::fitted;

// The drawing is so many steps wide.
const STEPS: u64 = 1000;

// Low and high, in percent first.
fn put_figures(decimal: bool, low: u64, high: u64, out: &mut [u8], at: usize) -> usize
    requires within { (low ≤ S) × (high ≤ S) }
    requires room { at ≤ length out.old }
    ensures { Within result out.new }
{
    let bold = text::put(out, at, b"<p><b>");
    let percent = fitted::put_percents(decimal, low, high, out, bold);
    let plain = text::put(out, percent, b"</b> <span>");
    let end = fitted::put_parts(low, high, out, plain);
    text::put(out, end, b"</span></p>\n")
}

// Low on the whole.
fn put_low(decimal: bool, low: u64, out: &mut [u8], at: usize) -> usize
    requires within { low ≤ S }
    requires room { at ≤ length out.old }
    ensures { Within result out.new }
{
    let numbers = [
        units::over(units::whole(decimal), low * STEPS),
        0,
        0,
        0,
        0,
        0,
    ];
    forms::put_form(
        b"<svg class='chance' viewBox='0 0 1000 1' preserveAspectRatio='none' role='img' aria-label='chance'><rect height='1' width='#'/></svg>\n",
        numbers,
        out,
        at,
    )
}

// The gap, and the most that it can be: one part less than the fans and boards that are rated.
fn put_gap(gap: u64, most: u64, out: &mut [u8], at: usize) -> usize
    requires { at ≤ length out.old }
    ensures { Within result out.new }
{
    let numbers = [gap, most, most, gap, 0, 0];
    if most == 0 {
        return forms::put_form(b"<p>gap # of at most #</p>\n", numbers, out, at);
    }
    forms::put_form(
        b"<p>gap # of at most #<svg class='gap' viewBox='0 0 # 1' preserveAspectRatio='none' role='img' aria-label='gap'><rect height='1' width='#'/></svg></p>\n",
        numbers,
        out,
        at,
    )
}

// How far apart two figures are.
fn gap_of(low: u64, high: u64) -> u64 {
    if high < low {
        return 0;
    }
    high - low
}

// All of it.
pub fn put_chance(decimal: bool, low: u64, high: u64, most: u64, out: &mut [u8], at: usize) -> usize
    requires within { (low ≤ S) × (high ≤ S) }
    requires room { at ≤ length out.old }
    ensures { Within result out.new }
{
    let figures = put_figures(decimal, low, high, out, at);
    let drawn = put_low(decimal, low, out, figures);
    put_gap(gap_of(low, high), most, out, drawn)
}
