// The bus runner over a capture that goes on in a second block: 10,920 samples alike, no event; then document 01's own example of the
// runner, 5 passing while the stamp runs over, and select 1 as the block's last sample; at last 65,536 passing, which are two events.
#![tactic(auto)]

fn main(rt: HostRuntime) {
    bus_runner::start(&rt);
}
