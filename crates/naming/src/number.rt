// A number, and where a byte stands.
ghost use Rattle.std.specs.Prelude.{◌≡◌, ◌≤◌, length};
ghost use Rattle.naming.specs.Named.{number_in, up_to};

// The most digits of a number.
const LONGEST: usize = 16;

// The number that a word's decimal digits spell, 0 where it is no number.
pub fn number_of(word: &[u8]) -> u64
    ensures { result ≡ number_in word.now }
{
    if LONGEST < word.len() {
        return 0;
    }
    let mut number: u64 = 0;
    for byte in word {
        let digit = u64::from(*byte);
        if refusals::outside(48, digit, 57) {
            return 0;
        }
        number = number * 10 + (digit - 48);
    }
    number
}

// How many bytes stand before the first mark.
pub fn up_to(word: &[u8], mark: u8) -> usize
    ensures { (result ≡ up_to mark word.now) × (result ≤ length word.now) }
{
    word.iter()
        .position(|byte| *byte == mark)
        .unwrap_or(word.len())
}
