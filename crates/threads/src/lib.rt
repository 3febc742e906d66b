// The range of the threads' words (document 01, "Where a call is turned down"): refusal 3.
#![tactic(auto)]

ghost use Rattle.std.specs.Prelude.{◌≡◌, [], ◌∷◌, suc, ◌+◌, ◌≤◌, ◌<◌, length};
ghost use Rattle.rules.specs.Sizes.{most_words};
ghost use Rattle.rules.specs.Cell.{reader};
ghost use Rattle.rules.specs.Range.{every, consumer_in_range, producer_in_range};
ghost use Rattle.store.specs.Shape.{sizes};
ghost use Rattle.store.specs.Store.{Room};
ghost use Rattle.records.specs.Rows.{at_most, from};

use records::ANY;
use store::{Shape, phase, select, size};

// Whether words 1 to 7 from word `at` on are at most a to g.
fn row_at_most(s: &[u32], at: u32, a: u32, b: u32, c: u32, d: u32, e: u32, f: u32, g: u32) -> bool
    requires { (at ≤ most_words) × (at + 7 < length s.now) }
    ensures { at_most (from s.now at) 1 (a ∷ b ∷ c ∷ d ∷ e ∷ f ∷ g ∷ []) ≡ result }
{
    let i = at as usize;
    let last = (s[i + 5] <= e) & ((s[i + 6] <= f) & (s[i + 7] <= g));
    (s[i + 1] <= a) & ((s[i + 2] <= b) & ((s[i + 3] <= c) & ((s[i + 4] <= d) & last)))
}

// Phase 0 to 11 but 1 of producer t, and the words that the phase uses: call number, value, position, held, claimed, whether
// phase 7 was taken, accepted steps.
fn producer_in_range(s: &[u32], z: Shape, t: u32) -> bool
    requires room { Room (sizes z) s.now }
    requires le_t { (1 ≤ t) × (t ≤ z.producers) }
    ensures { producer_in_range (sizes z) (reader (sizes z) s.now) t ≡ result }
{
    let at = size::CONTENT_WORDS + size::THREAD_WORDS * t;
    let m = z.starts;
    let n = z.records;
    let k = size::MOST_STEPS;
    let phase = s[at as usize];
    if phase::LAST_PRODUCER < phase {
        return false;
    }
    match phase {
        0 => row_at_most(s, at, 0, 0, 0, 0, 0, 0, 0),
        1 => false,
        5 => row_at_most(s, at, m, ANY, m, n, n, 1, k),
        10 => row_at_most(s, at, m, ANY, m, n, 0, 0, k),
        11 => row_at_most(s, at, m, ANY, m, n, n, 0, k),
        _ => row_at_most(s, at, m, ANY, m, n, 0, 1, k),
    }
}

pub fn producers_in_range(s: &[u32], z: Shape) -> bool
    requires { Room (sizes z) s.now }
    ensures { every z.producers (λ p. producer_in_range (sizes z) (reader (sizes z) s.now) (suc p)) ≡ result }
{
    let mut ok = true;
    for t in 0..z.producers {
        ok = ok & producer_in_range(s, z, t + 1);
    }
    ok
}

// Phase 0 to 8 of the consumer, and the words that the phase uses: cursor record and position, found record and position, the
// item's call number and value, accepted steps. In 6 to 8 the second is a flag. (For speed 3 and 4 stand before the match, since four cases would be an indirect
// jump, and 0 to 2 are one row.)
pub fn consumer_in_range(s: &[u32], z: Shape) -> bool
    requires { Room (sizes z) s.now }
    ensures { consumer_in_range (sizes z) (reader (sizes z) s.now) ≡ result }
{
    let at = size::CONTENT_WORDS;
    let m = z.starts;
    let n = z.records;
    let k = size::MOST_STEPS;
    let phase = s[at as usize];
    if phase::LAST_CONSUMER < phase {
        return false;
    }
    if phase < phase::SCAN {
        let steps = select(phase == phase::IDLE, 0, k);
        return row_at_most(s, at, 0, 0, 0, 0, 0, 0, steps);
    }
    if phase < phase::RESCAN {
        return row_at_most(s, at, n, m, 0, 0, 0, 0, k);
    }
    match phase {
        5 => row_at_most(s, at, n, m, n, m, 0, 0, k),
        6 => row_at_most(s, at, 0, 1, n, m, 0, 0, k),
        7 => row_at_most(s, at, 0, 1, n, m, m, ANY, k),
        _ => row_at_most(s, at, 0, 1, 0, 0, m, ANY, k),
    }
}
