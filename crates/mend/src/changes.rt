// Where two lists of bytes differ.
ghost use Rattle.std.specs.Prelude.{◌≡◌, cond, not, ◌+◌, ◌*◌, ◌≤◌, eqb, length};
ghost use Rattle.rules.specs.Below.{held};
ghost use Rattle.rules.specs.Mending.{per_change, differs, changes_below};
ghost use Rattle.writer.specs.Laid.{laid};
ghost use Rattle.mend.specs.Change.{change_of, Put};

// A change is three numbers: the place, the old value and the new one.
pub const PER_CHANGE: usize = 3;

// 1 for a byte that is changed, 0 for one that is not.
fn change(old: u8, new: u8) -> usize
    ensures { result ≡ cond (not (eqb old new)) 1 0 }
{
    if old != new {
        return 1;
    }
    0
}

// At how many places below k they differ.
pub fn changed(old: &[u8], new: &[u8], k: usize) -> usize
    requires { (k ≤ length old.now) × (k ≤ length new.now) }
    ensures { result ≡ held (differs old.now new.now) k }
{
    let mut count: usize = 0;
    for i in 0..k {
        count += change(old[i], new[i]);
    }
    count
}

// The change at a place, if there is one, laid over the list; and where the next one goes.
fn put_change(place: usize, old: u8, new: u8, list: &mut [u64], at: usize) -> usize
    requires { at + length (change_of place old new) ≤ length list.old }
    ensures { Put place old new at list.old list.new result }
{
    if old != new {
        list[at] = place as u64;
        list[at + 1] = old as u64;
        list[at + 2] = new as u64;
        return at + PER_CHANGE;
    }
    at
}

// The changes at all places below k, in order, laid over a list's front.
pub fn put_changes(old: &[u8], new: &[u8], k: usize, list: &mut [u64])
    requires places { (k ≤ length old.now) × (k ≤ length new.now) }
    requires fits { per_change * held (differs old.now new.now) k ≤ length list.old }
    ensures { list.new ≡ laid 0 (changes_below old.now new.now k)
        list.old }
{
    let mut at: usize = 0;
    for i in 0..k {
        at = put_change(i, old[i], new[i], list, at);
    }
}
