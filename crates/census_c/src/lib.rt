// The census for programs in C: each call of include/census.h is the library's, with its contract, and its answer is a number.
#![tactic(auto)]

ghost use Rattle.std.specs.Prelude.{◌≡◌};
ghost use Rattle.census_rules.specs.Census.{Outcome, open_board, taking, reading_table, counting};
ghost use Rattle.census.specs.Answers.{answer_number};

use bed_board::WORDS;
use census::Refusal;

// 0 where the call is done, or the number of the refusal.
fn number_of(answer: Result<(), Refusal>) -> u32
    ensures { result ≡ answer_number answer }
{
    answer.err().map_or(0, u32::from)
}

// Opens a board: all beds free, nothing counted.
#[unsafe(no_mangle)]
pub extern "C" fn census_open(board: &mut [u32; WORDS]) -> u32
    ensures { (result ≡ 0) × (board.new ≡ open_board) }
{
    census::census_open(board)
}

// Takes an item.
#[unsafe(no_mangle)]
pub extern "C" fn census_take(board: &mut [u32; WORDS], value: u32) -> u32
    ensures { ◌≡◌ {A = Outcome} (record { number = result; words = board.new }) (taking value board.old) }
{
    number_of(census::census_take(board, value))
}

// Reads a table; the counts are made afresh.
#[unsafe(no_mangle)]
pub extern "C" fn census_table(board: &mut [u32; WORDS], rows: &[u32]) -> u32
    ensures { ◌≡◌ {A = Outcome} (record { number = result; words = board.new }) (reading_table rows.now board.old) }
{
    number_of(census::census_table(board, rows))
}

// The census of an office, into word 0 of the reply.
#[unsafe(no_mangle)]
pub extern "C" fn census_count(board: &[u32; WORDS], office: u32, reply: &mut [u32; 4]) -> u32
    ensures { ◌≡◌ {A = Outcome} (record { number = result; words = reply.new }) (counting office board.now reply.old) }
{
    number_of(census::census_count(board, office, reply))
}
