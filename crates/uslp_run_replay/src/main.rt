// The bench on another input: commands whose expected answers are the Rust's own.
#![tactic(auto)]

use std::io;

fn main(rt: HostRuntime) -> io::Result<()> {
    uslp_bench::run_on_less_stack(&rt)
}
