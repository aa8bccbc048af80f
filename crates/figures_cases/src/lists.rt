// A case's lists, each read from its words to the front of a room.
ghost use Rattle.std.specs.Prelude.{◌≤◌, length};
ghost use Rattle.casefile.specs.Rooms.{most_numbers};

use casefile::{MOST_NUMBERS, words};

// The n words from `at` on as numbers of 32 bits.
pub fn longs(bytes: &[u8], at: usize, n: usize) -> [u32; MOST_NUMBERS]
    requires { (at ≤ length bytes.now) × (n ≤ most_numbers) }
{
    let mut numbers = [0u32; MOST_NUMBERS];
    words::longs(bytes, at, &mut numbers[..n]);
    numbers
}

// As numbers of 16 bits.
pub fn shorts(bytes: &[u8], at: usize, n: usize) -> [u16; MOST_NUMBERS]
    requires { (at ≤ length bytes.now) × (n ≤ most_numbers) }
{
    let mut numbers = [0u16; MOST_NUMBERS];
    words::shorts(bytes, at, &mut numbers[..n]);
    numbers
}

// As they are.
pub fn fulls(bytes: &[u8], at: usize, n: usize) -> [u64; MOST_NUMBERS]
    requires { (at ≤ length bytes.now) × (n ≤ most_numbers) }
{
    let mut numbers = [0u64; MOST_NUMBERS];
    words::fulls(bytes, at, &mut numbers[..n]);
    numbers
}

// As numbers of 8 bits.
pub fn octets(bytes: &[u8], at: usize, n: usize) -> [u8; MOST_NUMBERS]
    requires { (at ≤ length bytes.now) × (n ≤ most_numbers) }
{
    let mut numbers = [0u8; MOST_NUMBERS];
    words::octets(bytes, at, &mut numbers[..n]);
    numbers
}
