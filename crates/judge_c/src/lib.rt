// The judge for programs in C, over a working table of call structs and a word buffer for the order, and the check of an order
// (specs/Reply.antt). The check says yes to each order that the judge writes (specs/Accepted.antt).
#![tactic(auto)]

ghost use Rattle.std.specs.Prelude.{◌≡◌};
ghost use Rattle.history.specs.Form.{most_events, read};
ghost use Rattle.reading.specs.Refusal.{numbered};
ghost use Rattle.order_check.specs.Check.{checked};
ghost use Rattle.judge_c.specs.Reply.{number_of, reply_words, Replies, number_of_checked};

use judge::Call;
use reading::Refusal;

// The verdict's number; where it is explained, how many words the order has goes to word 0 of the reply.
fn deliver(verdict: Result<Option<u32>, Refusal>, reply: &mut [u32; 4]) -> u32
    ensures { (result ≡ number_of (numbered verdict)) × (reply.new ≡ reply_words (numbered verdict) reply.old) }
{
    match verdict {
        Ok(Some(count)) => {
            reply[0] = count;
            0
        }
        Ok(None) => 1,
        Err(refusal) => refusal.into(),
    }
}

// Judges a history.
#[unsafe(no_mangle)]
pub extern "C" fn judge_history(
    history: &[u32],
    table: &mut [Call],
    order: &mut [u32],
    reply: &mut [u32; 4],
) -> u32
    ensures { Replies history.now table.old table.new order.old order.new reply.old reply.new result }
{
    deliver(judge::judge(history, table, order), reply)
}

fn number_of(checked: Result<bool, Refusal>) -> u32
    ensures { result ≡ number_of_checked (numbered checked) }
{
    match checked {
        Ok(true) => 0,
        Ok(false) => 1,
        Err(refusal) => u32::from(refusal),
    }
}

// Checks an order of a history's calls; it needs no table and no verdict.
#[unsafe(no_mangle)]
pub extern "C" fn order_check(history: &[u32], order: &[u32]) -> u32
    ensures { result ≡ number_of_checked (checked (read most_events history.now) order.now) }
{
    number_of(order_check::check(history, order))
}
