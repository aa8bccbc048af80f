// Text put into a buffer that is written once: bytes, decimal numbers, and both. What does not fit is left out.
#![tactic(auto)]

pub mod lines; // lines.rt: lines of named numbers

ghost use Rattle.std.specs.Prelude.{◌≤◌, length};
ghost use Rattle.text.specs.Decimal.{decimal};
ghost use Rattle.text.specs.Put.{Put, PutNamed};

// The digits of the largest number of 64 bits.
const MOST_DIGITS: usize = 20;

// Puts a text at a place of the buffer and answers where it ends.
pub fn put(out: &mut [u8], at: usize, text: &[u8]) -> usize
    requires { at ≤ length out.old }
    ensures { Put out.old at text.now out.new result }
{
    if out.len() - at < text.len() {
        return at;
    }
    let end = at + text.len();
    out[at..end].copy_from_slice(text);
    end
}

// Puts a number's decimal digits, likewise.
pub fn put_number(out: &mut [u8], at: usize, n: u64) -> usize
    requires { at ≤ length out.old }
    ensures { Put out.old at (decimal n) out.new result }
{
    let mut digits = [0u8; MOST_DIGITS];
    let k = io::decimal(n, &mut digits);
    put(out, at, &digits[..k])
}

// Puts a name and a number's decimal digits, likewise.
pub fn put_named(name: &[u8], n: u64, out: &mut [u8], at: usize) -> usize
    requires { at ≤ length out.old }
    ensures { PutNamed out.old at name.now n out.new result }
{
    let end = put(out, at, name);
    put_number(out, end, n)
}
