// Reads two recordings of one run from standard input, one event a line and an empty line between them, and prints their comparison.
#![tactic(auto)]

use two_recordings::MOST_REPORT;

// Stays: verdict's main differs in two sizes and a call; a function of both sizes with a closure would be no plainer, its contract longer than main.
fn main(rt: HostRuntime) {
    // The lines of 8,192 events are at most 360,448 bytes. So a text that is cut off here has a first recording with a line too many, or with
    // the first bad line that it had; or an empty line within its first 360,449 bytes, and the same holds of the 360,449 or more after that.
    let mut text = [0u8; 720_898];
    let Ok(n) = stdio::read_input(&rt, &mut text) else {
        stdio::print_unreadable(&rt);
        return;
    };
    let mut out = [0u8; MOST_REPORT];
    let printed = two_recordings::report(&text[..n], &mut out);
    stdio::print(&rt, &out[..printed]);
}
