// A chance as a 64-bit float: out by a division by 2^30, in by a multiplication, both exact; and the whole numbers just
// below and above.
#![tactic(auto)]

ghost use Rattle.std.specs.Prelude.{◌≡◌, ◌≤◌, true};
ghost use Rattle.rules.specs.State.{S};
ghost use Rattle.rules.specs.Doubles.{is_chance, whole_of, on_grid};
ghost use Rattle.doubles.specs.Floats.{bits, Over, Times};

// 2^30.
const UNIT: f64 = 1073741824.0;

// x divided by 2^30, with nothing lost.
pub fn divided(x: u64) -> f64
    requires { x ≤ S }
    ensures { Over x result }
{
    (x as f64) / UNIT
}

// Is x a chance? A NaN fails both comparisons, and negative zero passes both.
pub fn is_chance(x: f64) -> bool
    ensures { result ≡ is_chance (bits x) }
{
    let from_zero = x >= 0.0;
    let to_one = x <= 1.0;
    from_zero && to_one
}

// x times 2^30, with nothing lost.
fn multiplied(x: f64) -> f64
    requires { is_chance (bits x) ≡ true }
    ensures { Times x result }
{
    x * UNIT
}

// The whole number just below x times 2^30, or just above: the same one where nothing is cut off.
pub fn whole(up: bool, x: f64) -> u64
    requires { is_chance (bits x) ≡ true }
    ensures { result ≡ whole_of up (bits x) }
{
    let product = multiplied(x);
    let below = std::num::truncating_f64_to_u64(product);
    if up {
        if (below as f64) < product {
            return below + 1;
        }
    }
    below
}

// Is nothing cut off?
pub fn on_grid(x: f64) -> bool
    requires { is_chance (bits x) ≡ true }
    ensures { result ≡ on_grid (bits x) }
{
    whole(false, x) == whole(true, x)
}
