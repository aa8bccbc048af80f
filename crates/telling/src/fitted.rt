// Texts that want their room beforehand: what the buffer has no room for is left out, as by `text::put`.
ghost use Rattle.std.specs.Prelude.{◌≤◌, length};
ghost use Rattle.rules.specs.State.{S};
ghost use Rattle.forms.specs.Within.{Within};

use rules::Rule;
use text::lines;

// Each of them has less.
const ROOM: usize = 256;

// ` L% to H%`, of low and high.
pub fn put_percents(decimal: bool, low: u64, high: u64, out: &mut [u8], at: usize) -> usize
    requires within { (low ≤ S) × (high ≤ S) }
    requires room { at ≤ length out.old }
    ensures { Within result out.new }
{
    if out.len() - at < ROOM {
        return at;
    }
    percent::put_range(decimal, low, high, out, at)
}

// ` low L high H`.
pub fn put_parts(low: u64, high: u64, out: &mut [u8], at: usize) -> usize
    requires { at ≤ length out.old }
    ensures { Within result out.new }
{
    if out.len() - at < ROOM {
        return at;
    }
    lines::put_pair(b" low ", low, b" high ", high, out, at)
}

// ` lower L upper U`.
pub fn put_ends(lower: i64, upper: i64, out: &mut [u8], at: usize) -> usize
    requires { at ≤ length out.old }
    ensures { Within result out.new }
{
    if out.len() - at < ROOM {
        return at;
    }
    lines::put_signed_pair(b" lower ", lower, b" upper ", upper, out, at)
}

// A rule in words.
pub fn put_rule(rule: Rule, out: &mut [u8], at: usize) -> usize
    requires { at ≤ length out.old }
    ensures { Within result out.new }
{
    if out.len() - at < ROOM {
        return at;
    }
    wording::rule::put_rule(rule.kind, rule.first, rule.second, out, at)
}

// A system's stretch in words, where it is not the whole deck.
pub fn put_stretch(fans: u64, a: u64, b: u64, out: &mut [u8], at: usize) -> usize
    requires { at ≤ length out.old }
    ensures { Within result out.new }
{
    if out.len() - at < ROOM {
        return at;
    }
    wording::put_stretch(fans, a, b, out, at)
}
