// Rows 4 and 5: components in a row that have failed. The line of row 4 is the ring past a lead of none.
ghost use Rattle.std.specs.Prelude.{◌≡◌, ◌+◌, ◌-◌, ◌^◌, ◌<◌};
ghost use Rattle.memory.specs.Run.{run, lead, run_worked, run_failed, run_works, lead_worked, lead_failed, lead_works};

// "(t, s)": t failed ones before the first that worked, s failed ones since the last that worked.
#[derive(Clone, Copy)]
pub struct Run {
    pub lead: usize,
    pub run: usize,
}

// "lead t": all t components read have failed.
#[derive(Clone, Copy)]
pub struct Lead {
    pub lead: usize,
}

impl Run {
    // A line's start, row 4's "0".
    pub fn start() -> Run
        ensures { result ≡ run 0 0 }
    {
        Run { lead: 0, run: 0 }
    }

    // "(t, s) becomes (t, 0)"
    pub fn worked(self) -> Run
        ensures { result ≡ run_worked self }
    {
        Run { run: 0, ..self }
    }

    // "(t, s) becomes (t, s+1)"
    pub fn failed(self) -> Run
        requires { self.run + 1 < 2 ^ 64 }
        ensures { result ≡ run_failed self }
    {
        Run {
            run: self.run + 1,
            ..self
        }
    }

    // The memory that a failed component took to this one.
    pub fn before(self) -> Run
        requires { 0 < self.run }
        ensures { result ≡ run self.lead (self.run - 1) }
    {
        Run {
            run: self.run - 1,
            ..self
        }
    }

    // "works exactly if t + s < k"
    pub fn works(self, k: usize) -> bool
        requires { self.lead + self.run < 2 ^ 64 }
        ensures { result ≡ run_works k self }
    {
        self.lead + self.run < k
    }
}

impl Lead {
    // "lead t becomes (t, 0)"
    pub fn worked(self) -> Run
        ensures { result ≡ lead_worked self }
    {
        Run {
            lead: self.lead,
            run: 0,
        }
    }

    // "lead t becomes lead t+1"
    pub fn failed(self) -> Lead
        requires { self.lead + 1 < 2 ^ 64 }
        ensures { result ≡ lead_failed self }
    {
        Lead {
            lead: self.lead + 1,
        }
    }

    // A reading whose components have all failed: "works exactly if t + s < k", with no s.
    pub fn works(self, k: usize) -> bool
        ensures { result ≡ lead_works k self }
    {
        self.lead < k
    }

    // The memory that a failed component took to this one.
    pub fn before(self) -> Lead
        requires { 0 < self.lead }
        ensures { result ≡ lead (self.lead - 1) }
    {
        Lead {
            lead: self.lead - 1,
        }
    }
}
