// The program's words: its name, and behind it those that its user wrote.
ghost use Rattle.io.specs.Counts.{IsPrefixLen};

use std::env::{Env, FillError};

// No program has more words.
pub const MOST_WORDS: usize = 4294967296;

// Puts the word at a place at the front of a buffer and answers its length: 0 where there is none, or one that is
// longer than the buffer.
pub fn put_word(rt: &HostRuntime, place: usize, out: &mut [u8]) -> usize
    ensures { IsPrefixLen result out.new }
{
    match rt.arg(place, out) {
        Ok(length) => length,
        Err(_) => 0,
    }
}

// Is there a word at a place?
pub fn is_word(rt: &HostRuntime, place: usize) -> bool {
    let mut front = [0u8; 1];
    match rt.arg(place, &mut front) {
        Ok(_) => true,
        Err(FillError::TooLong) => true,
        Err(FillError::NotPresent) => false,
    }
}

// How many words there are.
pub fn count(rt: &HostRuntime) -> usize {
    for i in 0..MOST_WORDS {
        if !is_word(rt, i) {
            return i;
        }
    }
    MOST_WORDS
}
