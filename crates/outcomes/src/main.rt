// Runs the known outcomes of documents 01 and 02 and 3,000 generated modules on two implementations, and compares their
// answers. Claims are worked out for each of these modules, and for as many generated loops. Each module is judged, run and
// worked out again on a device that may be too small for it.
#![tactic(auto)]

mod answer;
mod build;
mod case;
mod code;
mod damage;
mod device;
mod doors;
mod edge;
mod garble;
mod generate;
mod groups;
mod known;
mod limit;
mod limited;
mod loops;
mod order;
mod ours;
mod plan;
mod plate;
mod range;
mod sample;
mod score;
mod side;
mod space;
mod start;
mod step;
mod tally;
mod theirs;
mod work;
mod worked;

use limited::Limited;
use random::Random;
use std::io;
use tally::{Tally, Worked};

const CASES: u32 = 3000;

const SEED: u32 = 2463534242;

// The tallies of verdicts and runs, of claims that are worked out, and of both with small limits.
fn cases(tally: &mut Tally, worked: &mut Worked, limited: &mut Limited) {
    let mut modules = Random::new(SEED);
    let mut loops = Random::new(SEED);
    for _ in 0..CASES {
        case::case(&mut modules, tally, worked, limited);
        loops::case(&mut loops, worked);
    }
}

fn main(rt: HostRuntime) -> io::Result<()> {
    known::known(&rt)?;
    groups::groups(&rt)?;
    let mut tally = Tally::default();
    let mut worked = Worked::default();
    let mut limited = Limited::default();
    cases(&mut tally, &mut worked, &mut limited);
    tally.report(&rt)?;
    worked.report(&rt)?;
    limited.report(&rt)
}
