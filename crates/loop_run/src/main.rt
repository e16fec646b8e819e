// Runs the module on standard input on the proved machine: from index 0 with all registers 0, on a region of zeros that begins inside
// a memory of 65,536 bytes, with a budget of 100,000 steps. Prints how the run ended, its steps, the pc, and r1 in hexadecimal.
// Its input here is document 01's loop.
#![tactic(auto)]

use model::{Limits, Machine, Outcome, Steps};
use std::io;

// How many bytes of the input are read, at most.
const MOST: usize = 65_536;

const OFFSET: usize = 1000;

const BUDGET: Steps = 100_000;

fn main(rt: HostRuntime) -> io::Result<()> {
    // Fixed memory: the input stands in a buffer with its length beside it.
    let mut buffer = [0u8; MOST];
    let n = input::read_full(&mut rt.stdin(), &mut buffer)?;
    let mut memory = [0u8; 65536];
    let start = Machine {
        registers: [0; 8],
        pc: 0,
    };
    let Outcome { machine, answer } = machine::value::run(
        Limits::BOX,
        &buffer[..n],
        start,
        &mut memory,
        OFFSET,
        BUDGET,
    );
    match answer.completion {
        Ok(ending) => print!(rt; "{ending}")?,
        Err(_) => rt.print("refused")?,
    }
    let r1 = machine.registers[1];
    println!(rt;
        " after {} steps, pc {}, r1 {r1:08x}",
        answer.steps, machine.pc
    )
}
