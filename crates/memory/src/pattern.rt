// Row 8: the states of the last components as bits, the last one read lowest; a one has failed.
ghost use Rattle.std.specs.Prelude.{◌≡◌, true, ◌+◌, ◌*◌, ◌≤◌, ◌<◌};
ghost use Rattle.rules.specs.Memory.{lacking_last};
ghost use Rattle.rules.specs.Pairs.{longest_window};
ghost use Rattle.memory.specs.Pattern.{pattern, many_patterns};

use rules::{Pair, limit};

// As many ones as the longest window has components.
const ONES: u64 = 1023;

#[derive(Clone, Copy)]
pub struct Pattern {
    pub bits: usize,
}

impl Pattern {
    // A working component read. Of the memory at hand the oldest state is forgotten before.
    pub fn worked(self) -> Pattern
        requires { self.bits < many_patterns }
        ensures { result ≡ pattern (2 * self.bits) }
    {
        Pattern {
            bits: 2 * self.bits,
        }
    }

    // A failed one read.
    pub fn failed(self) -> Pattern
        requires { self.bits < many_patterns }
        ensures { result ≡ pattern (2 * self.bits + 1) }
    {
        Pattern {
            bits: 2 * self.bits + 1,
        }
    }

    // The same states with the oldest one, which is forgotten next, failed.
    pub fn older(self, oldest: usize) -> Pattern
        requires { (self.bits < many_patterns) × (oldest < many_patterns) }
        ensures { result ≡ pattern (oldest + self.bits) }
    {
        Pattern {
            bits: oldest + self.bits,
        }
    }

    // "too few working in a window": fewer than k of the last r.
    pub fn lacks(self, p: Pair) -> bool
        requires { p.r ≤ longest_window }
        ensures { result ≡ lacking_last self.bits p }
    {
        let last = (self.bits as u64) & (ONES >> (limit::WINDOW - p.r));
        p.r - u64::from(last.count_ones()) < p.k
    }

    // "the end works"
    pub fn works(self) -> bool
        ensures { result ≡ true }
    {
        true
    }
}
