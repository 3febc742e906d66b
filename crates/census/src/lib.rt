// The census of a hospital's beds (document 02, U13): a bed board, the offices' rule table on it, and their counts, kept up item by item. What
// each call does is in crates/census_rules/specs/Census.antt.
#![tactic(auto)]

ghost use Rattle.std.specs.Prelude.{◌≡◌, true, false, MatchResult};
ghost use Rattle.census_rules.specs.Board.{in_range};
ghost use Rattle.census_rules.specs.Census.{Outcome, open_board, taking, reading_table, counting};
ghost use Rattle.census_rules.specs.Laws.{InRange};
ghost use Rattle.census.specs.Answers.{refusal_number, answer_number};

use bed_board::{
    BEDS, COUNTS, LAST_STATE, WORDS, all_afresh, in_range, rules_on, write_counts, write_rules,
};
use rule_table::{LAST_OFFICE, table_in};
use tally::counts_after;

// Why a call is refused, with the number that C gets. A refused call changes no word.
#[derive(Clone, Copy, Debug, PartialEq, Eq)]
pub enum Refusal {
    // another bed or state
    Item = 19,
    // no table
    Table = 20,
    // another office
    Office = 21,
    // a word of the board, or an item that would take a count out of 0 to 512
    Board = 22,
}

impl From<Refusal> for u32 {
    ghost from_gives = { λ refusal number. number ≡ refusal_number refusal };

    fn from(refusal: Refusal) -> u32 {
        refusal as u32
    }
}

// Opens a board: all beds free, nothing counted.
// Stays: a number, 0, for the call that cannot fail, since `census_open_contract` (crates/intake_census/specs/Promises.antt) says it.
pub fn census_open(board: &mut [u32; WORDS]) -> u32
    ensures { (result ≡ 0) × (board.new ≡ open_board) }
{
    *board = [0u32; WORDS];
    0
}

// The look at the board that each further call begins with.
fn look(board: &[u32; WORDS]) -> Result<(), Refusal>
    ensures { MatchResult result (λ _. InRange board.now) (λ refusal. (refusal ≡ Refusal.Board) × (in_range board.now ≡ false)) }
{
    if in_range(board) {
        Ok(())
    } else {
        Err(Refusal::Board)
    }
}

// Takes an item.
pub fn census_take(board: &mut [u32; WORDS], value: u32) -> Result<(), Refusal>
    ensures { ◌≡◌ {A = Outcome} (record { number = answer_number result; words = board.new }) (taking value board.old) }
{
    look(board)?;
    let bed = (value / 8) as usize;
    let state = value % 8;
    if BEDS <= bed {
        return Err(Refusal::Item);
    }
    if LAST_STATE < state {
        return Err(Refusal::Item);
    }
    let rules = rules_on(board);
    let old = board[bed] as usize;
    let counts = counts_after(board, rules, old, state as usize).ok_or(Refusal::Board)?;
    board[bed] = state;
    write_counts(board, counts);
    Ok(())
}

// Reads a table; the counts are made afresh.
pub fn census_table(board: &mut [u32; WORDS], rows: &[u32]) -> Result<(), Refusal>
    ensures { ◌≡◌ {A = Outcome} (record { number = answer_number result; words = board.new }) (reading_table rows.now board.old) }
{
    look(board)?;
    let rules = table_in(rows).ok_or(Refusal::Table)?;
    let counts = all_afresh(board, rules);
    write_rules(board, rules);
    write_counts(board, counts);
    Ok(())
}

// The census of an office, into word 0 of the reply.
pub fn census_count(board: &[u32; WORDS], office: u32, reply: &mut [u32; 4]) -> Result<(), Refusal>
    ensures { ◌≡◌ {A = Outcome} (record { number = answer_number result; words = reply.new }) (counting office board.now reply.old) }
{
    look(board)?;
    if LAST_OFFICE < office {
        return Err(Refusal::Office);
    }
    reply[0] = board[COUNTS + office as usize];
    Ok(())
}
