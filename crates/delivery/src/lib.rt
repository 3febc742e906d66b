// What C gets of a reply: the returned number, and the four words of the reply.
#![tactic(auto)]

ghost use Rattle.std.specs.Prelude.{◌≡◌, []};
ghost use Rattle.store.specs.Outcome.{reply_in, response, counted_in};
ghost use Rattle.delivery.specs.Export.{accepted_code, accepted_words, code, reply_words};

use store::{Counted, Refusal, Reply};

// The number that an accepted call's reply is returned as.
fn reply_code(r: Reply) -> u32
    ensures { result ≡ accepted_code (reply_in [] 0 r) }
{
    match r {
        Reply::Done | Reply::Started(_) => 0,
        Reply::Going => 100,
        Reply::Ended => 101,
        Reply::Empty => 102,
        Reply::Item(_, _) => 103,
        Reply::Drained(_) => 104,
    }
}

// The number that a call returns: its reply's, or its refusal's.
pub fn returned_code(r: Result<Reply, Refusal>) -> u32
    ensures { result ≡ code (response r) }
{
    match r {
        Ok(reply) => reply_code(reply),
        Err(refusal) => u32::from(refusal),
    }
}

// The call number, or how many items a drain handed over, the value and the accepted steps of a reply, stored for the caller.
fn store_reply(r: Reply, steps: u32, reply: &mut [u32; 4])
    ensures { reply.new ≡ accepted_words (reply_in [] 0 r) steps reply.old }
{
    match r {
        Reply::Done => {}
        Reply::Started(number) => {
            reply[0] = number;
            reply[2] = steps;
        }
        Reply::Going | Reply::Ended | Reply::Empty => {
            reply[2] = steps;
        }
        Reply::Item(number, value) => {
            reply[0] = number;
            reply[1] = value;
            reply[2] = steps;
        }
        Reply::Drained(count) => {
            reply[0] = count;
            reply[1] = 0;
            reply[2] = steps;
        }
    }
}

// A reply goes to the caller's four words, and its number is returned; of a refusal the number alone.
pub fn deliver(r: Result<Counted, Refusal>, reply: &mut [u32; 4]) -> u32
    ensures { (result ≡ code (counted_in [] 0 r)) × (reply.new ≡ reply_words (counted_in [] 0 r) reply.old) }
{
    match r {
        Ok(c) => {
            store_reply(c.reply, c.steps, reply);
            reply_code(c.reply)
        }
        Err(refusal) => u32::from(refusal),
    }
}
