// The fans that a word names: one by its number, some by a range as 3-7, or several of these with commas between them.
#![tactic(auto)]

pub mod number; // number.rt: a number, and where a byte stands

ghost use Rattle.std.specs.Prelude.{◌≡◌, ◌≤◌, length};
ghost use Rattle.rules.specs.Refusal.{most};
ghost use Rattle.naming.specs.Named.{minus, up_to, first_in, last_in, range_failed, named_next, named_in};

const COMMA: u8 = 44;

const MINUS: u8 = 45;

// The state with the fans failed too that a word names so far; or a part of it names none.
#[derive(Clone, Copy)]
pub struct Named {
    pub wrong: bool,
    pub state: u64,
}

// The state with the fans from one to another failed too.
fn fail_range(state: u64, from: u64, to: u64) -> u64
    requires { (1 ≤ from) × (from ≤ to) × (to ≤ most) }
    ensures { result ≡ range_failed state from to }
{
    let mut after = state;
    for fan in from..=to {
        after = states::fan_failed(after, fan);
    }
    after
}

// The last fan of a part, whose minus stands at `at` or nowhere: a part without one names one fan.
fn last_of(part: &[u8], at: usize, first: u64) -> u64
    requires { (at ≡ up_to minus part.now) × (at ≤ length part.now) × (first ≡ first_in part.now) }
    ensures { result ≡ last_in part.now }
{
    if at == part.len() {
        return first;
    }
    number::number_of(&part[at + 1..])
}

// One part more; behind a part that is wrong nothing is looked at.
fn name_part(n: u64, part: &[u8], named: Named) -> Named
    requires { n ≤ most }
    ensures { result ≡ named_next n part.now named }
{
    if named.wrong {
        return named;
    }
    let state = named.state;
    let at = number::up_to(part, MINUS);
    let first = number::number_of(&part[..at]);
    let last = last_of(part, at, first);
    if refusals::outside(1, first, n) {
        return Named { wrong: true, state };
    }
    if refusals::outside(first, last, n) {
        return Named { wrong: true, state };
    }
    let after = fail_range(state, first, last);
    Named {
        wrong: false,
        state: after,
    }
}

// The state of a deck of n fans with those failed too that a word names.
pub fn name_fans(n: u64, word: &[u8], state: u64) -> Named
    requires { n ≤ most }
    ensures { result ≡ named_in n word.now state }
{
    let mut named = Named {
        wrong: false,
        state,
    };
    let mut at: usize = 0;
    while at <= word.len() {
        let end = at + number::up_to(&word[at..], COMMA);
        named = name_part(n, &word[at..end], named);
        at = end + 1;
    }
    named
}
