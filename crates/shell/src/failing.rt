// What is told of a call on a file that failed.
use crate::writing;
use std::io::{Cursor, Error, Write};

// Room for what a failure is in words.
const WORDS: usize = 320;

// An error's words without its number, which the library puts behind them.
fn without_number(words: &str) -> &str {
    match words.rsplit_once(" (os error ") {
        Some((front, _)) => front,
        None => words,
    }
}

// Says on standard error what failed, by its label, and why.
pub fn fail(rt: &HostRuntime, label: &[u8], why: Error) {
    let mut out = Cursor::new([0u8; WORDS]);
    let _ = write!(out, "{why}");
    let end = (out.position() as usize).min(WORDS);
    let bytes = out.into_inner();
    let words = str::from_utf8(&bytes[..end]).unwrap_or("");
    writing::say(rt, label);
    writing::say(rt, b": ");
    writing::say(rt, without_number(words).as_bytes());
    writing::say(rt, b"\n");
}
