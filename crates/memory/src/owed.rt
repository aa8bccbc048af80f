// Rows 6 and 7: how many components must still work after a failed one. The line of row 6 is the ring past as many
// clean ones as can count.
ghost use Rattle.std.specs.Prelude.{◌≡◌, true, ◌+◌, ◌-◌, ◌^◌, ◌<◌, ◌≤◌};
ghost use Rattle.memory.specs.Owed.{owed, owed_worked, owed_failed, owed_works, clean_after, clean_worked};
ghost use Rattle.memory.specs.Owed.{clean_failed};

// "(x, g)": x clean ones before the first that failed, g still to work.
#[derive(Clone, Copy)]
pub struct Owed {
    pub clean: usize,
    pub owed: usize,
}

// "clean x": all components read have worked; x of them count.
#[derive(Clone, Copy)]
pub struct Clean {
    pub clean: usize,
}

impl Owed {
    // A line's start, row 6's "0".
    pub fn start(r: usize) -> Owed
        requires { 1 ≤ r }
        ensures { result ≡ owed (r - 1) 0 }
    {
        Owed {
            clean: r - 1,
            owed: 0,
        }
    }

    // "one less, not below 0"
    pub fn worked(self) -> Owed
        ensures { result ≡ owed_worked self }
    {
        Owed {
            owed: self.owed.saturating_sub(1),
            ..self
        }
    }

    // The same of each of so many working components.
    pub fn worked_many(self, many: usize) -> Owed
        requires { many ≤ self.owed }
        ensures { result ≡ owed self.clean (self.owed - many) }
    {
        Owed {
            owed: self.owed - many,
            ..self
        }
    }

    // "0 becomes r - 1; else dead", and a memory that owes r is dead.
    pub fn failed(self, r: usize) -> Owed
        requires { 1 ≤ r }
        ensures { result ≡ owed_failed r self }
    {
        if self.owed == 0 {
            return Owed {
                owed: r - 1,
                ..self
            };
        }
        Owed { owed: r, ..self }
    }

    // The memory that a working component took to this one, one more owed.
    pub fn before(self) -> Owed
        requires { self.owed + 1 < 2 ^ 64 }
        ensures { result ≡ owed self.clean (self.owed + 1) }
    {
        Owed {
            owed: self.owed + 1,
            ..self
        }
    }

    // "works exactly if x >= g"
    pub fn works(self) -> bool
        ensures { result ≡ owed_works self }
    {
        self.owed <= self.clean
    }
}

impl Clean {
    // So many components read, all working.
    pub fn after(read: usize, r: usize) -> Clean
        requires { 1 ≤ r }
        ensures { result ≡ clean_after r read }
    {
        Clean {
            clean: read.min(r - 1),
        }
    }

    // "clean x becomes clean x+1, x at most r - 1"
    pub fn worked(self, r: usize) -> Clean
        requires { 1 ≤ r }
        ensures { result ≡ clean_worked r self }
    {
        Clean {
            clean: self.clean.saturating_add(1).min(r - 1),
        }
    }

    // "clean x becomes (x, r-1)"
    pub fn failed(self, r: usize) -> Owed
        requires { 1 ≤ r }
        ensures { result ≡ clean_failed r self }
    {
        Owed {
            clean: self.clean,
            owed: r - 1,
        }
    }

    // "clean works"
    pub fn works(self) -> bool
        ensures { result ≡ true }
    {
        true
    }
}
