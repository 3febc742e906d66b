// Reads a history from standard input, one event a line, and prints the judge's word on it and its order.
#![tactic(auto)]

use recording::MOST_REPORT;

fn main(rt: HostRuntime) {
    // The lines of 8,192 events are at most 360,448 bytes, so a text that is cut off has a line too many, or the first bad line that it had.
    let mut text = [0u8; 360_449];
    let Ok(n) = stdio::read_input(&rt, &mut text) else {
        stdio::print_unreadable(&rt);
        return;
    };
    let mut out = [0u8; MOST_REPORT];
    let printed = recording::report(&text[..n], &mut out);
    stdio::print(&rt, &out[..printed]);
}
