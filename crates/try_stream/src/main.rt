// The bus runner over short lines, whose answers fill the output many times over in one block of input, and over lines that straddle blocks.
#![tactic(auto)]

fn main(rt: HostRuntime) {
    bus_runner::start(&rt);
}
