// What a word is read as: its letters, a whole number, a decimal, a survival number.
ghost use Rattle.std.specs.Prelude.{◌≡◌, true, ◌^◌, ◌≤◌, length};
ghost use Rattle.grammar.specs.Numbers.{with_letter, letters_of, none, digit, with_digit, whole};
ghost use Rattle.grammar.specs.Numbers.{most, point_in, joined, fraction, share, parts};

use rules::version;

// The number of all words that are longer than seven letters, 257^7; and 257^6, from which on a word has seven.
pub const LONGER: u64 = 74051159531521793;

const SEVEN: u64 = 288136807515649;

// What is no number.
const NONE: u64 = 4294967296;

const POINT: u8 = 46;

const MOST_DIGITS: usize = 9;

// A letter more.
fn with_letter(number: u64, letter: u8) -> u64
    ensures { result ≡ with_letter number letter }
{
    if number < SEVEN {
        return number * 257 + letter as u64 + 1;
    }
    LONGER
}

// A word by its letters.
pub fn letters(word: &[u8]) -> u64
    ensures { result ≡ letters_of word.now }
{
    let mut number: u64 = 0;
    for letter in word {
        number = with_letter(number, *letter);
    }
    number
}

fn is_digit(b: u8) -> bool
    ensures { result ≡ digit b }
{
    if b < 48 {
        return false;
    }
    b <= 57
}

// A digit more.
fn with_digit(number: u64, b: u8) -> u64
    requires { (number ≤ none) × (digit b ≡ true) }
    ensures { (result ≡ with_digit number b) × (result ≤ none) }
{
    let next = number * 10 + (b - 48) as u64;
    if next < NONE {
        return next;
    }
    NONE
}

// A whole number.
pub fn whole(word: &[u8]) -> u64
    ensures { (result ≡ whole word.now) × (result ≤ none) }
{
    if word.len() == 0 {
        return NONE;
    }
    let mut number: u64 = 0;
    for b in word {
        if !is_digit(*b) {
            return NONE;
        }
        number = with_digit(number, *b);
    }
    number
}

// Where the first point stands; the word's length where there is none.
fn point(word: &[u8]) -> usize
    ensures { (result ≡ point_in word.now) × (result ≤ length word.now) }
{
    for (i, b) in word.iter().enumerate() {
        if *b == POINT {
            return i;
        }
    }
    word.len()
}

// What stands before the point and behind it, in billionths.
fn joined(before: u64, behind: u64, digits: usize) -> u64
    requires { (before ≤ none) × (behind ≤ none) × (digits ≤ most) }
    ensures { result ≡ joined before behind digits }
{
    let scale = 10u64.pow((MOST_DIGITS - digits) as u32);
    before * version::DECIMAL + behind * scale
}

// A decimal from 0 to 1, in billionths.
fn fraction(word: &[u8]) -> u64
    ensures { (result ≡ fraction word.now) × (result ≤ none) }
{
    let at = point(word);
    let length = word.len();
    if length - at < 2 {
        return NONE;
    }
    let from = at + 1;
    let digits = length - from;
    if digits > MOST_DIGITS {
        return NONE;
    }
    let before = whole(&word[..at]);
    let behind = whole(&word[from..]);
    let value = joined(before, behind, digits);
    if value > version::DECIMAL {
        return NONE;
    }
    value
}

// A decimal as parts of a version's unit.
fn share(version: u64, billionths: u64) -> u64
    requires { billionths ≤ none }
    ensures { result ≡ share version billionths }
{
    if billionths == NONE {
        return NONE;
    }
    let all = billionths * units::whole(units::is_decimal(version));
    let below = all / version::DECIMAL;
    if all % version::DECIMAL == 0 {
        return below;
    }
    NONE + 1 + below
}

// A survival number.
pub fn parts(version: u64, word: &[u8]) -> u64
    ensures { result ≡ parts version word.now }
{
    let number = whole(word);
    if number != NONE {
        return number;
    }
    share(version, fraction(word))
}
