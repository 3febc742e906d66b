// Decimal numbers in bytes: read at a position and written at one.
#![tactic(auto)]

ghost use Rattle.std.specs.Prelude.{◌≡◌, ◌+◌, ◌≤◌, length, drop};
ghost use Rattle.text.specs.Decimal.{digits_from, after_zero, number_at, digits, decimal};
ghost use Rattle.text.specs.Wrote.{Wrote};

// A number that was read, and the position after it.
#[derive(Clone, Copy)]
pub struct Number {
    pub value: u32,
    pub next: usize,
}

// The number of all the digits from a position on, 0 where there are none.
fn read_digits(s: &[u8], at: usize) -> Option<Number>
    requires { at ≤ length s.now }
    ensures { result ≡ digits_from at 0 (drop at s.now) }
{
    let mut value: u32 = 0;
    for i in at..s.len() {
        let b = s[i];
        if !b.is_ascii_digit() {
            return Some(Number { value, next: i });
        }
        value = value.checked_mul(10)?.checked_add((b - b'0') as u32)?;
    }
    let next = s.len();
    Some(Number { value, next })
}

// A zero that was read before the position, with no digit after it.
fn after_zero(s: &[u8], at: usize) -> Option<Number>
    ensures { result ≡ after_zero s.now at }
{
    match s.get(at) {
        Some(b) if b.is_ascii_digit() => None,
        _ => Some(Number { value: 0, next: at }),
    }
}

// The number at a position.
#[tactic(auto, using(crate::proofs::Leading::zero_leads))]
pub fn read_number(s: &[u8], at: usize) -> Option<Number>
    ensures { result ≡ number_at s.now at }
{
    let b = *s.get(at)?;
    if !b.is_ascii_digit() {
        return None;
    }
    if b == b'0' {
        return after_zero(s, at + 1);
    }
    read_digits(s, at)
}

// Stays: the functions that write take a lent buffer and a position, and no struct that owns its bytes, since the contracts of `report`
// (recording) and `run` (session), which docs/CLAIMS.md names, give the whole lent buffer: what is not written stays as it was (`Wrote`).
// Writes at most k digits of n at a position, and answers the position after them.
fn write_digits(out: &mut [u8], at: usize, k: usize, n: u32) -> usize
    requires { at + k ≤ length out.old }
    ensures { Wrote out.old at (digits k n) out.new result }
{
    if k == 0 {
        return at;
    }
    if n < 10 {
        out[at] = b'0' + n as u8;
        return at + 1;
    }
    let next = write_digits(out, at, k - 1, n / 10);
    out[next] = b'0' + (n % 10) as u8;
    next + 1
}

// Writes a number at a position, and answers the position after it.
pub fn write_number(out: &mut [u8], at: usize, n: u32) -> usize
    requires { at + 10 ≤ length out.old }
    ensures { Wrote out.old at (decimal n) out.new result }
{
    write_digits(out, at, 10, n)
}

// Writes all of some bytes at a position, and answers the position after them.
pub fn write_bytes(out: &mut [u8], at: usize, bytes: &[u8]) -> usize
    requires { at + length bytes.now ≤ length out.old }
    ensures { Wrote out.old at bytes.now out.new result }
{
    let next = at + bytes.len();
    out[at..next].copy_from_slice(bytes);
    next
}
