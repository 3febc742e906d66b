// A table as a hospital writes it (document 02, U13): refusal 20, and the rule table that it gives.
#![tactic(auto)]

ghost use Rattle.std.specs.Prelude.{◌≡◌, true, false, ◌<◌, length, MatchOption};
ghost use Rattle.census_rules.specs.Table.{is_row, are_rows, is_for, once, each_once, is_table, rule_for, row_for, rules_in};

use std::array;

// A table has twenty rows of three words, one for each office and state.
const WORDS: usize = 60;

const ROWS: usize = 20;

const OFFICES: u32 = 4;

pub const LAST_OFFICE: u32 = 3;

const STATES: u32 = 5;

const LAST_STATE: u32 = 4;

// Whether row k of a table is of an office and a state that there are, and its third word is 0 or 1.
fn is_row(rows: &[u32], k: usize) -> bool
    requires { (length rows.now ≡ 60) × (k < 20) }
    ensures { is_row rows.now k ≡ result }
{
    (rows[3 * k] <= LAST_OFFICE) & (rows[3 * k + 1] <= LAST_STATE) & (rows[3 * k + 2] <= 1)
}

fn are_rows(rows: &[u32]) -> bool
    requires { length rows.now ≡ 60 }
    ensures { are_rows 20 rows.now ≡ result }
{
    for k in 0..ROWS {
        if !is_row(rows, k) {
            return false;
        }
    }
    true
}

// Whether row k of a table is the one for this office and this state.
fn is_for(rows: &[u32], k: usize, office: u32, state: u32) -> bool
    requires { (length rows.now ≡ 60) × (k < 20) }
    ensures { is_for rows.now k office state ≡ result }
{
    (rows[3 * k] == office) & (rows[3 * k + 1] == state)
}

// Whether just one row of a table is for this office and this state.
fn once(rows: &[u32], office: u32, state: u32) -> bool
    requires { length rows.now ≡ 60 }
    ensures { once rows.now office state ≡ result }
{
    let mut times: u32 = 0;
    for k in 0..ROWS {
        if is_for(rows, k, office, state) {
            times += 1;
        }
    }
    times == 1
}

// Stays: no `all` over the states, nor over the offices below: tried, and the clauses of `all` at a range left the equation of its answer open.
fn each_once(rows: &[u32], office: u32) -> bool
    requires { length rows.now ≡ 60 }
    ensures { each_once rows.now office ≡ result }
{
    for state in 0..STATES {
        if !once(rows, office, state) {
            return false;
        }
    }
    true
}

// Whether the words are a table.
pub fn is_table(rows: &[u32]) -> bool
    ensures { is_table rows.now ≡ result }
{
    if rows.len() != WORDS {
        return false;
    }
    if !are_rows(rows) {
        return false;
    }
    for office in 0..OFFICES {
        if !each_once(rows, office) {
            return false;
        }
    }
    true
}

// The third word of the row for an office and a state.
fn rule_for(rows: &[u32], office: u32, state: u32) -> u32
    requires { length rows.now ≡ 60 }
    ensures { result ≡ rule_for rows.now office state }
{
    let mut word: u32 = 0;
    for k in 0..ROWS {
        if is_for(rows, k, office, state) {
            word = rows[3 * k + 2];
        }
    }
    word
}

fn row_for(rows: &[u32], office: u32) -> [u32; 5]
    requires { length rows.now ≡ 60 }
    ensures { result ≡ row_for rows.now office }
{
    array::from_fn(
        |state|
            requires { (state < 5) × (length rows.now ≡ 60) }
        { rule_for(rows, office, state as u32) },
    )
}

// The rule table of sixty words, row by row, whether they are a table or not.
pub fn rules_in(rows: &[u32]) -> [[u32; 5]; 4]
    requires { length rows.now ≡ 60 }
    ensures { result ≡ rules_in rows.now }
{
    array::from_fn(
        |office| -> [u32; 5]
            requires { (office < 4) × (length rows.now ≡ 60) }
            ensures { result ≡ row_for rows.entry.now office }
        { row_for(rows, office as u32) },
    )
}

// The rule table that the words give, row by row. Refusal 20 is that there is none.
pub fn table_in(rows: &[u32]) -> Option<[[u32; 5]; 4]>
    ensures { MatchOption result (is_table rows.now ≡ false) (λ rules. (is_table rows.now ≡ true) × (rules ≡ rules_in rows.now)) }
{
    if !is_table(rows) {
        return None;
    }
    Some(rules_in(rows))
}
