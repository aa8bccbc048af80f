// The rubbish that lent tables hold before a call, and the checksum of what they hold after.
ghost use Rattle.std.specs.Prelude.{◌≡◌, length};
ghost use Rattle.casefile.specs.Begins.{Begins};
ghost use Rattle.casefile.specs.Tables.{rubbish_at, rubbish_in, checksum_of};

// A number of the rubbish times the factor, plus the step, is the next.
const FACTOR: u64 = 6364136223846793005;

const STEP: u64 = 1442695040888963407;

// Fills a table with rubbish, and answers the number from which a second table goes on.
pub fn rubbish(seed: u64, cells: &mut [u64]) -> u64
    ensures next { result ≡ rubbish_at seed (length cells.old) }
    ensures filled { Begins (rubbish_in seed) cells.old cells.new
        (length cells.old) }
{
    let mut x = seed;
    for cell in cells.iter_mut() {
        x = x.wrapping_mul(FACTOR).wrapping_add(STEP);
        *cell = x;
    }
    x
}

// The sum of (i + 1) times cell i, modulo 2^64.
pub fn checksum(cells: &[u64]) -> u64
    ensures { result ≡ checksum_of cells.now }
{
    let mut sum: u64 = 0;
    for (i, cell) in cells.iter().enumerate() {
        sum = sum.wrapping_add((i as u64 + 1).wrapping_mul(*cell));
    }
    sum
}
