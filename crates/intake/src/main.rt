// Runs the lines of standard input on a store, and prints their replies and the judge's word on their history.
#![tactic(auto)]

fn main(rt: HostRuntime) {
    // One byte more than is allowed, so that longer input is seen.
    let mut input = [0u8; 8193];
    let Ok(n) = stdio::read_input(&rt, &mut input) else {
        stdio::print_unreadable(&rt);
        return;
    };
    let mut out = [0u8; 155_679];
    let printed = session::run(&input[..n], &mut out);
    stdio::print(&rt, &out[..printed]);
}
