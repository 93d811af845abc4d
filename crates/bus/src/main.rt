// The bus runner.
#![tactic(auto)]

fn main(rt: HostRuntime) {
    bus_runner::start(&rt);
}
