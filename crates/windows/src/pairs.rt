// What the pairs ask of a pattern. The further pairs stand in a list, two numbers each.
ghost use Rattle.std.specs.Prelude.{◌≡◌, ◌-◌, ◌^◌};
ghost use Rattle.rules.specs.Memory.{lacking_in, longest};
ghost use Rattle.rules.specs.Pairs.{pairs_of};
ghost use Rattle.memory.specs.Pattern.{dies};
ghost use Rattle.windows.specs.Asked.{Judged, Windows, farthest};

use memory::pattern::Pattern;
use rules::Pair;

// The longest window.
fn longest(second: u64, more: &[u64]) -> u64
    requires { Windows second more.now }
    ensures { result ≡ farthest second more.now }
{
    let mut r = second;
    for pair in more.chunks_exact(2) {
        r = r.max(pair[1]);
    }
    r
}

// The bit of the oldest state that is kept; one is kept at the least.
pub fn oldest(second: u64, more: &[u64]) -> usize
    requires { Windows second more.now }
    ensures { result ≡ 2 ^ (farthest second more.now - 2) }
{
    1 << longest(second, more).saturating_sub(2)
}

// Does some pair's window, of the states read last, hold too few working?
pub fn lacks(first: u64, second: u64, more: &[u64], m: Pattern) -> bool
    requires { Windows second more.now }
    ensures { result ≡ lacking_in (pairs_of first second more.now) m.bits }
{
    if m.lacks(Pair {
        k: first,
        r: second,
    }) {
        return true;
    }
    for pair in more.chunks_exact(2) {
        if m.lacks(Pair {
            k: pair[0],
            r: pair[1],
        }) {
            return true;
        }
    }
    false
}

// Is it dead where the next component fails?
pub fn dies(first: u64, second: u64, more: &[u64], m: Pattern) -> bool
    requires { Judged second more.now m }
    ensures { result ≡ dies (pairs_of first second more.now) m.bits }
{
    lacks(first, second, more, m.failed())
}
