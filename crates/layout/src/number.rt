// Numbers that bytes spell, "little-endian".
ghost use Rattle.std.specs.Prelude.{◌≡◌, ◌+◌, ◌≤◌, length};
ghost use Rattle.rules.specs.File.{number_at};

// The numbers that a byte holds, and that two bytes hold.
const BYTE: u64 = 256;

const TWO_BYTES: u64 = 65536;

// A byte as a number, so that a sum of bytes cannot wrap.
fn wide(byte: u8) -> u64
    ensures { result ≡ byte }
{
    byte as u64
}

// The number in two bytes, lowest first.
pub fn number2(bytes: &[u8], at: usize) -> u64
    requires { at + 2 ≤ length bytes.now }
    ensures { result ≡ number_at 2 bytes.now at }
{
    let low = wide(bytes[at]);
    let high = wide(bytes[at + 1]);
    low + BYTE * high
}

// The number in four bytes, lowest first.
pub fn number4(bytes: &[u8], at: usize) -> u64
    requires { at + 4 ≤ length bytes.now }
    ensures { result ≡ number_at 4 bytes.now at }
{
    let low = number2(bytes, at);
    let high = number2(bytes, at + 2);
    low + TWO_BYTES * high
}
