// Faults told into a lent buffer, the first twenty of them.
ghost use Rattle.std.specs.Prelude.{[], ◌∷◌};
ghost use Rattle.grammar.specs.Text.{fault_at};
ghost use Rattle.typed_lists.specs.Told.{Roomy, MoreTold};

const MOST_TOLD: usize = 20;

// How many were told, and where their lines end.
#[derive(Clone, Copy)]
pub struct Told {
    pub count: usize,
    pub end: usize,
}

// One fault more: what is told then.
pub fn plus(told: Told, line: u64, word: &[u8], wanted: u64, named: u64, out: &mut [u8]) -> Told
    requires { Roomy told out.old }
    ensures { MoreTold told out.old result out.new
        (fault_at line word.now wanted named ∷ []) }
{
    if told.count >= MOST_TOLD {
        return told;
    }
    let end = faults::put_fault(line, word, wanted, named, out, told.end);
    Told {
        count: told.count + 1,
        end,
    }
}
