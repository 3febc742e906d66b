// The comparison of two recordings for programs in C: each call of include/recordings.h is the library's, with its contract.
#![tactic(auto)]

ghost use Rattle.std.specs.Prelude.{◌≡◌, cond};
ghost use Rattle.history.specs.Form.{most_events, read};
ghost use Rattle.comparison.specs.Compared.{keeps_to};
ghost use Rattle.comparison.specs.Reply.{Replies};

// Compares two recordings.
#[unsafe(no_mangle)]
pub extern "C" fn recordings_compare(first: &[u32], second: &[u32], reply: &mut [u32; 4]) -> u32
    ensures { Replies first.now second.now reply.old reply.new result }
{
    comparison::recordings_compare(first, second, reply)
}

// Whether the second recording may be trusted on the word of the first: 0 yes, 1 no.
#[unsafe(no_mangle)]
pub extern "C" fn recordings_keep_precedence(first: &[u32], second: &[u32]) -> u32
    ensures { result ≡ cond (keeps_to (read most_events first.now) (read most_events second.now)) 0 1 }
{
    comparison::recordings_keep_precedence(first, second)
}
