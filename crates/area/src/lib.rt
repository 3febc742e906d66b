// The range of the drain area's words (document 02, U5): refusal 3.
#![tactic(auto)]

ghost use Rattle.std.specs.Prelude.{◌≡◌, ◌+◌, ◌*◌, ◌≤◌, leb, eqb, length, get_or};
ghost use Rattle.rules.specs.Cell.{reader};
ghost use Rattle.rules.specs.Range.{every, drain_in_range};
ghost use Rattle.store.specs.Shape.{sizes};
ghost use Rattle.store.specs.Store.{Room};

use store::{Shape, drain_at, phase, select, size};

// The call numbers of so many pairs from word `at` on, m the most that one may be.
fn pairs_marked(s: &[u32], at: usize, count: usize, m: u32) -> bool
    requires { at + 2 * count ≤ length s.now }
    ensures { every count (λ i. leb (get_or s.now (at + 2 * i) 0) m) ≡ result }
{
    let mut ok = true;
    for i in 0..count {
        ok = ok & (s[at + 2 * i] <= m);
    }
    ok
}

// Whether n words from word `at` on are zero. Of a dequeue this loop runs over every pair of the drain area: no branch in it.
fn zero_from(s: &[u32], at: usize, n: usize) -> bool
    requires { at + n ≤ length s.now }
    ensures { every n (λ j. eqb (get_or s.now (at + j) 0) 0) ≡ result }
{
    let mut zero = true;
    for j in 0..n {
        zero = zero & (s[at + j] == 0);
    }
    zero
}

// The drain area: limit 0 to 64, and 0 while the consumer is idle; count 0 to the limit; a pair below the count as an entry's number and
// value, the others zero.
pub fn drain_in_range(s: &[u32], z: Shape) -> bool
    requires { Room (sizes z) s.now }
    ensures { drain_in_range (sizes z) (reader (sizes z) s.now) ≡ result }
{
    let at = drain_at(z) as usize;
    let limit = s[at];
    let count = s[at + 1];
    if select(s[16] == phase::IDLE, 0, size::MOST_DRAINED) < limit {
        return false;
    }
    if limit < count {
        return false;
    }
    let marked = count as usize;
    let pairs = pairs_marked(s, at + 2, marked, z.starts);
    pairs & zero_from(s, at + 2 + 2 * marked, 128 - 2 * marked)
}
