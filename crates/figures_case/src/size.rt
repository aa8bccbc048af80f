// How long a case is.
ghost use Rattle.std.specs.Prelude.{◌≡◌, true, false, ◌+◌, ◌≤◌, length};
ghost use Rattle.casefile.specs.Rooms.{most_numbers};
ghost use Rattle.figures_case.specs.Whole.{other_words, most_cells, Whole};

use crate::{CELLS, FANS, HEAD, MOST_CELLS, OTHERS, PAIRED, PLACED, Sizes, WEIGHED};
use casefile::{MOST_NUMBERS, words};

// The sizes of a case that is not whole.
fn cut_short() -> Sizes
    ensures { result.whole ≡ false }
{
    Sizes {
        fans: 0,
        weights: 0,
        more: 0,
        boards: 0,
        g: 0,
        long: 0,
        room: 0,
        whole: false,
    }
}

// Does the case at `at`, of n survival numbers, w weights, m numbers of further pairs, p board numbers and g boards,
// end within the file, and does each number fit its list?
fn fits(bytes: &[u8], at: usize, n: usize, w: usize, m: usize, p: usize, g: usize) -> bool
    requires begins { at ≤ length bytes.now }
    requires few { n ≤ most_numbers }
    requires light { w ≤ most_numbers }
    requires paired { m ≤ most_numbers }
    requires placed { p ≤ most_numbers }
    requires boarded { g ≤ most_numbers }
    ensures { result ≡ true → at + other_words + n + w + m + p + g ≤ length bytes.now }
{
    if words::whole(bytes) < at + OTHERS + n + w + m + p + g {
        return false;
    }
    if !words::fit(bytes, at + HEAD, n, words::LONG_LIMIT) {
        return false;
    }
    if !words::fit(bytes, at + WEIGHED + n, w, words::SHORT_LIMIT) {
        return false;
    }
    if !words::fit(bytes, at + PLACED + n + w + m, p, words::OCTET_LIMIT) {
        return false;
    }
    words::fit(bytes, at + OTHERS + n + w + m + p, g, words::LONG_LIMIT)
}

// The sizes of the case at `at`, of n survival numbers, w weights and m numbers of further pairs, whose table has so
// many cells.
fn boarded_at(bytes: &[u8], at: usize, n: usize, w: usize, m: usize, room: usize) -> Sizes
    requires begins { at ≤ length bytes.now }
    requires few { n ≤ most_numbers }
    requires light { w ≤ most_numbers }
    requires paired { m ≤ most_numbers }
    requires celled { room ≤ most_cells }
    ensures { result.whole ≡ true → Whole bytes.now at result }
{
    let p = words::word(bytes, at + PAIRED + n + w + m);
    if p > MOST_NUMBERS as u64 {
        return cut_short();
    }
    let boards = p as usize;
    let count = words::word(bytes, at + PLACED + n + w + m + boards);
    if count > MOST_NUMBERS as u64 {
        return cut_short();
    }
    let g = count as usize;
    let long = OTHERS + n + w + m + boards + g;
    let whole = fits(bytes, at, n, w, m, boards, g);
    Sizes {
        fans: n,
        weights: w,
        more: m,
        boards,
        g,
        long,
        room,
        whole,
    }
}

// The sizes of the case at `at`.
pub fn sizes_at(bytes: &[u8], at: usize) -> Sizes
    requires { at ≤ length bytes.now }
    ensures { result.whole ≡ true → Whole bytes.now at result }
{
    let room = words::word(bytes, at + CELLS);
    let n = words::word(bytes, at + FANS);
    if room > MOST_CELLS as u64 {
        return cut_short();
    }
    if n > MOST_NUMBERS as u64 {
        return cut_short();
    }
    let fans = n as usize;
    let w = words::word(bytes, at + HEAD + fans);
    if w > MOST_NUMBERS as u64 {
        return cut_short();
    }
    let weights = w as usize;
    let m = words::word(bytes, at + WEIGHED + fans + weights);
    if m > MOST_NUMBERS as u64 {
        return cut_short();
    }
    boarded_at(bytes, at, fans, weights, m as usize, room as usize)
}
