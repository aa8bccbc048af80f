// An answer as the one 64-bit number that C gets.
#![tactic(auto)]

ghost use Rattle.std.specs.Prelude.{◌≡◌, ◌<◌};
ghost use Rattle.rules.specs.File.{half_word, packed_refusal, packed};
ghost use Rattle.packing.specs.Packing.{Packable};

use rules::Rating;

// The numbers that half of an answer holds, and what a refusal's number is added to.
const HALF_WORD: u64 = 4294967296;

const REFUSED: u64 = (HALF_WORD - 1) * HALF_WORD;

// A refusal: (2^32 - 1) times 2^32 plus its number.
pub fn refused(number: u64) -> u64
    requires { number < half_word }
    ensures { result ≡ packed_refusal number }
{
    REFUSED + number
}

// Figures: low times 2^32 plus high, or the refusal.
pub fn pack(rating: Rating) -> u64
    requires { Packable rating }
    ensures { result ≡ packed rating }
{
    match rating {
        Rating::Range { low, high } => low * HALF_WORD + high,
        Rating::Refused(number) => refused(number),
    }
}
