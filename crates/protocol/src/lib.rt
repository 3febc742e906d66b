// The lines of the program's input, and the lines that it prints.
#![tactic(auto)]

ghost use Rattle.std.specs.Prelude.{◌≡◌, ◌==◌, ◌++◌, ◌+◌, ◌≤◌, length, drop, position};
ghost use Rattle.text.specs.Wrote.{Wrote};
ghost use Rattle.protocol.specs.Line.{line_length, field_at, last_at, open_line, enqueue_line, step_line, dequeue_line, parse_line};
ghost use Rattle.protocol.specs.Printed.{number_and, numbered, number_pair, printed, answered, most_printed};
ghost use Rattle.protocol.specs.Words.{space, newline, item_word};

use store::Reply;
use text::Number;

// What a line asks: an open with its four sizes, a start enqueue with its thread and value, a start dequeue, or a step with its
// thread.
#[derive(Clone, Copy)]
pub enum Line {
    Open(u32, u32, u32, u32),
    Enqueue(u32, u32),
    Dequeue,
    Step(u32),
}

// The position of the first newline.
fn first_newline(s: &[u8]) -> Option<usize>
    ensures { result ≡ position (λ b. b == newline) s.now }
{
    s.iter().position(|b| *b == b'\n')
}

// The position of the first newline from a position on, or the end.
pub fn line_end(s: &[u8], at: usize) -> usize
    ensures { result ≡ at + line_length (drop at s.now) }
{
    match s.get(at..) {
        Some(rest) => at + first_newline(rest).unwrap_or(rest.len()),
        None => at,
    }
}

// A number that one space follows.
#[tactic(auto, unfolding(crate::specs::Line::field_at))]
fn read_field(s: &[u8], at: usize) -> Option<Number>
    ensures { result ≡ field_at s.now at }
{
    let Number { value, next } = text::read_number(s, at)?;
    if *s.get(next)? != b' ' {
        return None;
    }
    let next = next + 1;
    Some(Number { value, next })
}

// A number that ends the line.
#[tactic(auto, unfolding(crate::specs::Line::last_at))]
fn read_last(s: &[u8], at: usize) -> Option<Number>
    ensures { result ≡ last_at s.now at }
{
    let number = text::read_number(s, at)?;
    if number.next == s.len() {
        Some(number)
    } else {
        None
    }
}

// `open B N P M`
#[tactic(auto, unfolding(crate::specs::Line::open_line))]
fn parse_open(s: &[u8]) -> Option<Line>
    ensures { result ≡ open_line s.now }
{
    let b = read_field(s, 5)?;
    let n = read_field(s, b.next)?;
    let p = read_field(s, n.next)?;
    let m = read_last(s, p.next)?;
    Some(Line::Open(b.value, n.value, p.value, m.value))
}

// `e THREAD VALUE`
#[tactic(auto, unfolding(crate::specs::Line::enqueue_line))]
fn parse_enqueue(s: &[u8]) -> Option<Line>
    ensures { result ≡ enqueue_line s.now }
{
    let t = read_field(s, 2)?;
    let v = read_last(s, t.next)?;
    Some(Line::Enqueue(t.value, v.value))
}

// `s THREAD`
#[tactic(auto, unfolding(crate::specs::Line::step_line))]
fn parse_step(s: &[u8]) -> Option<Line>
    ensures { result ≡ step_line s.now }
{
    let t = read_last(s, 2)?;
    Some(Line::Step(t.value))
}

// `d`
#[tactic(auto, unfolding(crate::specs::Line::dequeue_line))]
fn parse_dequeue(s: &[u8]) -> Option<Line>
    ensures { result ≡ dequeue_line s.now }
{
    if s.len() == 1 {
        Some(Line::Dequeue)
    } else {
        None
    }
}

// What a line asks, without its newline; none where it asks nothing that the program knows.
#[tactic(auto, unfolding(crate::specs::Line::parse_line))]
pub fn parse_line(s: &[u8]) -> Option<Line>
    ensures { result ≡ parse_line s.now }
{
    if s.starts_with(b"open ") {
        parse_open(s)
    } else if s.starts_with(b"e ") {
        parse_enqueue(s)
    } else if s.starts_with(b"s ") {
        parse_step(s)
    } else if s.starts_with(b"d") {
        parse_dequeue(s)
    } else {
        None
    }
}

// Writes a number and the byte after it.
pub fn print_number(out: &mut [u8], at: usize, n: u32, end: u8) -> usize
    requires { at + 11 ≤ length out.old }
    ensures { Wrote out.old at (number_and n end) out.new result }
{
    let next = text::write_number(out, at, n);
    out[next] = end;
    next + 1
}

// Writes a word, a number and a newline.
pub fn print_numbered(out: &mut [u8], at: usize, word: &[u8], n: u32) -> usize
    requires { at + length word.now + 11 ≤ length out.old }
    ensures { Wrote out.old at (numbered word.now n) out.new result }
{
    let next = text::write_bytes(out, at, word);
    print_number(out, next, n, b'\n')
}

// Writes two numbers, with a space between and a newline.
fn print_pair(out: &mut [u8], at: usize, n: u32, v: u32) -> usize
    requires { at + 22 ≤ length out.old }
    ensures { Wrote out.old at (number_pair n v) out.new result }
{
    let next = print_number(out, at, n, b' ');
    print_number(out, next, v, b'\n')
}

// Writes `item`, a call number, a value and the accepted steps.
fn print_item(out: &mut [u8], at: usize, n: u32, v: u32, steps: u32) -> usize
    requires { at + most_printed ≤ length out.old }
    ensures { Wrote out.old at (item_word ++ (number_and n space ++ number_pair v steps)) out.new result }
{
    let next = text::write_bytes(out, at, b"item ");
    let last = print_number(out, next, n, b' ');
    print_pair(out, last, v, steps)
}

// Writes the line of a reply, with the accepted steps of its call where it ends, at a position, and answers the position after it. The
// program starts no drain, and has no line for its end.
#[tactic(auto, unfolding(crate::specs::Printed::printed))]
pub fn print_reply(out: &mut [u8], at: usize, reply: Result<Reply, u32>, steps: u32) -> usize
    requires { at + most_printed ≤ length out.old }
    ensures { Wrote out.old at (printed (answered steps reply)) out.new result }
{
    match reply {
        Err(number) => print_numbered(out, at, b"refused ", number),
        Ok(Reply::Done) => text::write_bytes(out, at, b"ok\n"),
        Ok(Reply::Started(n)) => print_numbered(out, at, b"ok ", n),
        Ok(Reply::Going) => text::write_bytes(out, at, b"going\n"),
        Ok(Reply::Ended) => print_numbered(out, at, b"end ", steps),
        Ok(Reply::Empty) => print_numbered(out, at, b"empty ", steps),
        Ok(Reply::Item(n, v)) => print_item(out, at, n, v, steps),
        Ok(Reply::Drained(_)) => at,
    }
}
