// Reads commands from standard input, one to a line, and prints one answer line for each. A program has one input, so the other two sessions
// have programs of their own.
#![tactic(auto)]

use std::io;

fn main(rt: HostRuntime) -> io::Result<()> {
    uslp_bench::run_on_less_stack(&rt)
}
