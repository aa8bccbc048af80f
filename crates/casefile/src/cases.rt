// What the cases of several programs share: a rule in three words, lists that begin with how many numbers they have,
// and weights.
ghost use Rattle.std.specs.Prelude.{◌≡◌, ◌+◌, ◌≤◌, length};
ghost use Rattle.casefile.specs.Rooms.{most_numbers};
ghost use Rattle.casefile.specs.Cases.{rule_at, Listed, Sized};

use crate::{MOST_NUMBERS, words};
use rules::Rule;

// The rule in the three words from `at` on.
pub fn rule_at(bytes: &[u8], at: usize) -> Rule
    requires { at ≤ length bytes.now }
    ensures { result ≡ rule_at bytes.now at }
{
    let kind = words::word(bytes, at);
    let first = words::word(bytes, at + 1);
    let second = words::word(bytes, at + 2);
    Rule {
        kind,
        first,
        second,
    }
}

// The words of the list at `at`: how many numbers it has, then the numbers; 0 where it is cut short or has too many.
pub fn list_size(bytes: &[u8], at: usize) -> usize
    requires { at ≤ length bytes.now + most_numbers }
    ensures { Listed bytes.now at result }
{
    let numbers = words::word(bytes, at);
    if numbers > MOST_NUMBERS as u64 {
        return 0;
    }
    let count = numbers as usize;
    if words::whole(bytes) < at + 1 + count {
        return 0;
    }
    1 + count
}

// The words of the case at `at` up to its weights, whose `head` first words end in the number of them; 0 where it is
// cut short, or has too many weights or one above 16 bits.
pub fn case_size(bytes: &[u8], at: usize, head: usize) -> usize
    requires begins { at ≤ length bytes.now }
    requires headed { 1 ≤ head }
    requires short { head ≤ most_numbers }
    ensures { Sized bytes.now at head result }
{
    let list = list_size(bytes, at + (head - 1));
    if list == 0 {
        return 0;
    }
    if words::fit(bytes, at + head, list - 1, words::SHORT_LIMIT) {
        return head + (list - 1);
    }
    0
}
