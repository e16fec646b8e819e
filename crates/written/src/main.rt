// Writes tables with known answers and generated ones with two writers, and compares what they answer and every byte of
// their buffers. The reader must give back layout, counts and instructions of what is written, and all other bytes must
// stay as they were.
#![tactic(auto)]

mod answer;
mod back;
mod bend;
mod both;
mod case;
mod change;
mod draw;
mod known;
mod limit;
mod room;
mod sample;
mod score;
mod tables;

use random::Random;
use score::Score;
use std::io;

const CASES: u32 = 2000;

fn cases() -> Score {
    let mut random = Random::new(2463534242);
    let mut score = Score::default();
    for _case in 0..CASES {
        case::case(&mut random, &mut score);
    }
    score
}

fn main(rt: HostRuntime) -> io::Result<()> {
    known::groups(&rt)?;
    let score = cases();
    println!(rt; "generated tables, alike and as they should be: {score}")?;
    score.print_answers(&rt)
}
