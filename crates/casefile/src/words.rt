// Words of 64 bits read from a file's bytes.
ghost use Rattle.std.specs.Prelude.{◌≡◌, ℕ, ◌+◌, ◌/◌, ◌<◌, ◌≤◌, true, ◌↔◌, length};
ghost use Rattle.casefile.specs.Words.{word_bytes, word_at, words_from, low_words, octet_limit, short_limit, long_limit};
ghost use Rattle.casefile.specs.Begins.{Begins};

// The bytes of a word.
const WORD_BYTES: usize = 8;

// What 8, what 16 and what 32 bits hold is below these.
pub const OCTET_LIMIT: u64 = 256;

pub const SHORT_LIMIT: u64 = 65536;

pub const LONG_LIMIT: u64 = 4294967296;

// The whole words of a file.
pub fn whole(bytes: &[u8]) -> usize
    ensures { result ≡ length bytes.now / word_bytes }
{
    bytes.len() / WORD_BYTES
}

// The word at an index, lowest byte first; 0 past the last whole word.
pub fn word(bytes: &[u8], at: usize) -> u64
    ensures { result ≡ word_at bytes.now at }
{
    if bytes.len() / WORD_BYTES <= at {
        return 0;
    }
    let start = at * WORD_BYTES;
    let mut value: u64 = 0;
    for i in (0..WORD_BYTES).rev() {
        value = value * 256 + u64::from(bytes[start + i]);
    }
    value
}

// Are the `count` words from `at` on all below the limit?
pub fn fit(bytes: &[u8], at: usize, count: usize, limit: u64) -> bool
    requires begins { at ≤ length bytes.now }
    requires counted { count ≤ length bytes.now }
    ensures { (result ≡ true) ↔ ((k : ℕ) → k < count → word_at bytes.now (at + k) < limit) }
{
    for k in 0..count {
        if limit <= word(bytes, at + k) {
            return false;
        }
    }
    true
}

// Fills a list of 8-bit numbers with the words from `at` on.
pub fn octets(bytes: &[u8], at: usize, into: &mut [u8])
    requires { at ≤ length bytes.now }
    ensures { Begins (low_words octet_limit bytes.now at) into.old into.new
        (length into.old) }
{
    for (k, number) in into.iter_mut().enumerate() {
        *number = (word(bytes, at + k) % OCTET_LIMIT) as u8;
    }
}

// Fills a list of 16-bit numbers with the words from `at` on.
pub fn shorts(bytes: &[u8], at: usize, into: &mut [u16])
    requires { at ≤ length bytes.now }
    ensures { Begins (low_words short_limit bytes.now at) into.old into.new
        (length into.old) }
{
    for (k, number) in into.iter_mut().enumerate() {
        *number = (word(bytes, at + k) % SHORT_LIMIT) as u16;
    }
}

// Fills a list of 32-bit numbers with the words from `at` on.
pub fn longs(bytes: &[u8], at: usize, into: &mut [u32])
    requires { at ≤ length bytes.now }
    ensures { Begins (low_words long_limit bytes.now at) into.old into.new
        (length into.old) }
{
    for (k, number) in into.iter_mut().enumerate() {
        *number = (word(bytes, at + k) % LONG_LIMIT) as u32;
    }
}

// Fills a list of 64-bit numbers with the words from `at` on.
pub fn fulls(bytes: &[u8], at: usize, into: &mut [u64])
    requires { at ≤ length bytes.now }
    ensures { Begins (words_from bytes.now at) into.old into.new
        (length into.old) }
{
    for (k, number) in into.iter_mut().enumerate() {
        *number = word(bytes, at + k);
    }
}
