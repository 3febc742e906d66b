// The offices' counts as a bed goes from one state to another (document 02, U13).
#![tactic(auto)]

ghost use Rattle.std.specs.Prelude.{◌≡◌, true, false, ◌≤◌, ◌<◌, MatchOption};
ghost use Rattle.census_rules.specs.Board.{at_most};
ghost use Rattle.census_rules.specs.Census.{stays, changed, all_stay, all_changed};
ghost use Rattle.census_rules.specs.Laws.{InRange, Counting};

use bed_board::{COUNTS, MOST_BEDS, OFFICES, WORDS};

// A bed goes from one state to another: an office's count then, if it stays within 0 to 512.
fn changed(row: [u32; 5], count: u32, old: usize, new: usize) -> Option<u32>
    requires { (at_most 1 row ≡ true) × (count ≤ 512) × (old < 5) × (new < 5) }
    ensures { MatchOption result (stays row count old new ≡ false) (λ beds. (stays row count old new ≡ true) × (beds ≡ changed row count old new)) }
{
    let beds = (count + row[new]).checked_sub(row[old])?;
    if MOST_BEDS < beds {
        return None;
    }
    Some(beds)
}

// The four counts then, if every one of them stays within 0 to 512.
pub fn counts_after(
    board: &[u32; WORDS],
    rules: [[u32; 5]; 4],
    old: usize,
    new: usize,
) -> Option<[u32; 4]>
    requires { InRange board.now × Counting rules × (old < 5) × (new < 5) }
    ensures { MatchOption result (all_stay board.now rules old new ≡ false) (λ counts. (all_stay board.now rules old new ≡ true) × (counts ≡ all_changed board.now rules old new)) }
{
    let mut counts = [0; OFFICES];
    for office in 0..OFFICES {
        counts[office] = changed(rules[office], board[COUNTS + office], old, new)?;
    }
    Some(counts)
}
