// Rows 1 to 3: what the failed components add up to.
ghost use Rattle.std.specs.Prelude.{◌≡◌, ◌+◌, ◌^◌, ◌<◌};
ghost use Rattle.memory.specs.Sum.{sum, sum_worked, sum_failed, below_limit, sum_outside};

#[derive(Clone, Copy)]
pub struct Sum {
    pub sum: usize,
}

impl Sum {
    // "unchanged"
    pub fn worked(self) -> Sum
        ensures { result ≡ sum_worked self }
    {
        self
    }

    // "add 1", "add its weight"
    pub fn failed(self, weight: usize) -> Sum
        requires { self.sum + weight < 2 ^ 64 }
        ensures { result ≡ sum_failed weight self }
    {
        Sum {
            sum: self.sum + weight,
        }
    }

    // Rows 1 and 2 at the end: "works", and "k or more is dead".
    pub fn below(self, k: usize) -> bool
        ensures { result ≡ below_limit k self }
    {
        self.sum < k
    }

    // Row 3 at the end: "fails exactly if between l and h".
    pub fn outside(self, l: usize, h: usize) -> bool
        ensures { result ≡ sum_outside l h self }
    {
        self.sum < l || h < self.sum
    }
}
