// A bed board's words (document 02, U13): the look at them, the rule table on it, the counts made afresh.
#![tactic(auto)]

ghost use Rattle.std.specs.Prelude.{◌≡◌, true, ◌≤◌, ◌<◌, ◌+◌, ◌*◌, length};
ghost use Rattle.std.proofs.lemmas.List.Edits.{sets};
ghost use Rattle.census_rules.specs.Board.{at_most, states_on, in_range, row_at, rules_on, with_rules, with_counts, counted};
ghost use Rattle.census_rules.specs.Census.{afresh};
ghost use Rattle.census_rules.specs.Laws.{InRange, Counting};

use std::array;

// The words of a board: the states of so many beds,
pub const BEDS: usize = 512;

// the rows of the rule table, one for each office, with a word for each state, from
pub const OFFICES: usize = 4;

pub const STATES: usize = 5;

pub const TABLE: usize = 512;

// on, and the offices' counts from
pub const COUNTS: usize = 532;

// on.
pub const WORDS: usize = 536;

// the last state of a bed
pub const LAST_STATE: u32 = 4;

// the most beds that an office counts
pub const MOST_BEDS: u32 = 512;

// Whether all words are at most so much. No branch in the loop.
// Stays: no `all`, which branches at each word and is slower: the same loops in C, clang -O3, take 749 ns a board with it and 80 ns without.
fn at_most(words: &[u32], most: u32) -> bool
    ensures { at_most most words.now ≡ result }
{
    let mut ok = true;
    for word in words {
        ok = ok & (*word <= most);
    }
    ok
}

// Refusal 22: the look at the board's words.
pub fn in_range(board: &[u32; WORDS]) -> bool
    ensures { (length board.now ≡ 536) × (in_range board.now ≡ result) }
{
    at_most(&board[..BEDS], LAST_STATE)
        & at_most(&board[TABLE..COUNTS], 1)
        & at_most(&board[COUNTS..], MOST_BEDS)
}

// The rule table on a board, row by row.
pub fn rules_on(board: &[u32; WORDS]) -> [[u32; 5]; 4]
    ensures { result ≡ rules_on board.now }
{
    array::from_fn(
        |office| -> [u32; 5]
            requires { office < 4 }
            ensures { result ≡ row_at board.entry.now (512 + 5 * office) }
        { row_at(board, TABLE + STATES * office) },
    )
}

fn row_at(board: &[u32; WORDS], at: usize) -> [u32; 5]
    requires { at + 4 < 536 }
    ensures { result ≡ row_at board.now at }
{
    array::from_fn(|state| board[at + state])
}

// How many beds an office counts by its row, made afresh.
fn count_afresh(board: &[u32; WORDS], row: [u32; 5]) -> u32
    requires { InRange board.now × (at_most 1 row ≡ true) }
    ensures { result ≡ counted row (states_on board.now) }
{
    let mut count: u32 = 0;
    for state in &board[..BEDS] {
        count += row[*state as usize];
    }
    count
}

// The four counts made afresh by a rule table.
pub fn all_afresh(board: &[u32; WORDS], rules: [[u32; 5]; 4]) -> [u32; 4]
    requires { InRange board.now × Counting rules }
    ensures { result ≡ afresh rules (states_on board.now) }
{
    array::from_fn(
        |office|
            requires { (office < 4) × InRange board.now × Counting rules }
        { count_afresh(board, rules[office]) },
    )
}

// Writes some words from one on.
fn write(board: &mut [u32; WORDS], at: usize, words: &[u32])
    requires { at + length words.now ≤ 536 }
    ensures { board.new ≡ sets board.old at words.now }
{
    board[at..at + words.len()].copy_from_slice(words);
}

pub fn write_rules(board: &mut [u32; WORDS], rules: [[u32; 5]; 4])
    ensures { board.new ≡ with_rules board.old rules }
{
    for office in 0..OFFICES {
        write(board, TABLE + STATES * office, &rules[office]);
    }
}

pub fn write_counts(board: &mut [u32; WORDS], counts: [u32; 4])
    ensures { board.new ≡ with_counts board.old counts }
{
    write(board, COUNTS, &counts);
}
