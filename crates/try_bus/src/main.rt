// The bus runner again, over a pack file and a longer input.
#![tactic(auto)]

fn main(rt: HostRuntime) {
    bus_runner::start(&rt);
}
