// The bench on another input: frames that a link lost, repeated, reordered and damaged, with totals after each.
#![tactic(auto)]

use std::io;

fn main(rt: HostRuntime) -> io::Result<()> {
    uslp_bench::run_on_less_stack(&rt)
}
