// Runs a script of calls: what a plan writer or a desk engineer tries a plan with. docs/SCRIPT.md is the language.
#![tactic(auto)]

use std::io;

fn main(rt: HostRuntime) -> io::Result<()> {
    script::run(rt.alloc(), rt.stdin(), rt.stdout())
}
