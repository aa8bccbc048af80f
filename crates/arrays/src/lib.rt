// A deck file's lists, each read from its place into an array of fixed length: what the file does not fill is zeros.
#![tactic(auto)]

ghost use Rattle.std.specs.Prelude.{◌≡◌, ◌+◌, ◌*◌, ◌≤◌, length};
ghost use Rattle.rules.specs.Refusal.{most_boards};
ghost use Rattle.rules.specs.File.{most_fans, survival_bytes, weight_bytes, system_bytes, numbers_from, system_at};
ghost use Rattle.arrays.specs.Padded.{padded};

use layout::number;
use rules::{Rule, System, limit};

// The numbers of four bytes each, and zeros.
fn fours_in<const N: usize>(bytes: &[u8], from: usize, n: usize) -> [u32; N]
    requires few { n ≤ N }
    requires whole { from + survival_bytes * n ≤ length bytes.now }
    ensures { result ≡ padded N 0 (numbers_from survival_bytes bytes.now from n) }
{
    let mut numbers = [0u32; N];
    for i in 0..n {
        numbers[i] = number::number4(bytes, from + layout::SURVIVAL_BYTES * i) as u32;
    }
    numbers
}

// The survival numbers of n fans, and zeros.
pub fn survival_in(bytes: &[u8], from: usize, n: usize) -> [u32; limit::FANS]
    requires few { n ≤ most_fans }
    requires whole { from + survival_bytes * n ≤ length bytes.now }
    ensures { result ≡ padded most_fans 0 (numbers_from survival_bytes bytes.now from n) }
{
    fours_in(bytes, from, n)
}

// The survival numbers of g boards, and zeros.
pub fn board_survival_in(bytes: &[u8], from: usize, g: usize) -> [u32; limit::BOARDS]
    requires few { g ≤ most_boards }
    requires whole { from + survival_bytes * g ≤ length bytes.now }
    ensures { result ≡ padded most_boards 0 (numbers_from survival_bytes bytes.now from g) }
{
    fours_in(bytes, from, g)
}

// The weights of n fans, and zeros.
pub fn weights_in(bytes: &[u8], from: usize, n: usize) -> [u16; limit::FANS]
    requires few { n ≤ most_fans }
    requires whole { from + weight_bytes * n ≤ length bytes.now }
    ensures { result ≡ padded most_fans 0 (numbers_from weight_bytes bytes.now from n) }
{
    let mut weights = [0u16; limit::FANS];
    for i in 0..n {
        weights[i] = number::number2(bytes, from + layout::WEIGHT_BYTES * i) as u16;
    }
    weights
}

// The system in the ten bytes from a place on.
pub fn system_at(bytes: &[u8], at: usize) -> System
    requires { at + system_bytes ≤ length bytes.now }
    ensures { result ≡ system_at bytes.now at }
{
    let kind = number::number2(bytes, at);
    let first = number::number2(bytes, at + 2);
    let second = number::number2(bytes, at + 4);
    let a = number::number2(bytes, at + 6);
    let b = number::number2(bytes, at + 8);
    let rule = Rule {
        kind,
        first,
        second,
    };
    System { rule, a, b }
}
