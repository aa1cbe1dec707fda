// Runs the scripts of random histories. docs/TESTING.md says what they cover.
#![tactic(auto)]

use std::io;

fn main(rt: HostRuntime) -> io::Result<()> {
    script::run(rt.alloc(), rt.stdin(), rt.stdout())
}
