// The gate program of the scale plate: the bytes of a module on standard input, one line on standard output.
#![tactic(auto)]

use model::Limits;
use std::io;

fn main(rt: HostRuntime) -> io::Result<()> {
    gating::judge(Limits::PLATE, &mut rt.stdin(), &mut rt.stdout())
}
