// How often each answer was given, and the lines that say so.
use super::answer::{Ending, Ran, Verdict};
use std::fmt::Display;
use std::{fmt, io};

fn up(count: &mut u32) {
    *count = count.wrapping_add(1);
}

// How many pairs of answers were compared, and how many of them are alike.
#[derive(Clone, Copy, Default)]
pub struct Agreement {
    alike: u32,
    all: u32,
}

impl Agreement {
    pub(crate) fn count(&mut self, alike: bool) {
        up(&mut self.all);
        if alike {
            up(&mut self.alike);
        }
    }
}

impl Display for Agreement {
    fn fmt<W: fmt::Write>(&self, f: &mut fmt::Formatter<W>) -> fmt::Result {
        write!(f, "{} of {}", self.alike, self.all)
    }
}

// By a refusal's number, which is below 64.
#[derive(Clone, Copy, Default)]
struct Refusals([u32; 64]);

impl Refusals {
    fn count(&mut self, number: u32) {
        up(&mut self.0[number as usize % 64]);
    }

    // A line for each number that was given.
    fn report(&self, rt: &impl Print, words: &str) -> io::Result<()> {
        for (number, given) in self.0.iter().enumerate() {
            if 0 < *given {
                println!(rt; "{words} {number}: {given}")?;
            }
        }
        Ok(())
    }
}

// The answers to files that are judged.
#[derive(Clone, Copy, Default)]
pub struct Verdicts {
    agreement: Agreement,
    // A count, and no flag.
    accepted: u32,
    refused: Refusals,
}

impl Verdicts {
    pub(crate) fn count(&mut self, verdict: Verdict, alike: bool) {
        self.agreement.count(alike);
        match verdict {
            Ok(_) => up(&mut self.accepted),
            Err(fault) => self.refused.count(fault.number),
        }
    }
}

// The answers to runs; those that ended by how they did.
#[derive(Clone, Copy, Default)]
pub struct Runs {
    agreement: Agreement,
    // Of those that ended by themselves, made again with a budget past 32 bits.
    longer: Agreement,
    refused: Refusals,
    ended: [u32; 5],
}

impl Runs {
    pub(crate) fn count(&mut self, ran: &Ran, alike: bool) {
        self.agreement.count(alike);
        match ran.outcome {
            Ok(ending) => up(&mut self.ended[ending as usize]),
            Err(fault) => self.refused.count(fault.number),
        }
    }

    pub(crate) fn count_longer(&mut self, alike: bool) {
        self.longer.count(alike);
    }
}

// The files and runs of the generated modules.
#[derive(Clone, Copy, Default)]
pub struct Tally {
    pub verdicts: Verdicts,
    pub runs: Runs,
}

// The files whose claims are worked out: those that were accepted, that verify accepts after it, and that are the same
// when they are worked out again; those that were refused with their bytes as they came; and loops by what they claim of
// r0.
#[derive(Clone, Copy, Default)]
pub struct Worked {
    pub verdicts: Verdicts,
    verified: u32,
    same_again: u32,
    kept: u32,
    widened: u32,
    narrow: u32,
}

fn line(rt: &impl Print, words: &str, number: u32) -> io::Result<()> {
    println!(rt; "{words}: {number}")
}

impl Tally {
    pub(crate) fn report(&self, rt: &impl Print) -> io::Result<()> {
        println!(rt; "verdicts agree {}", self.verdicts.agreement)?;
        println!(rt; "runs agree {}", self.runs.agreement)?;
        println!(rt; "the same with a budget past 32 bits {}", self.runs.longer)?;
        line(rt, "accepted", self.verdicts.accepted)?;
        self.verdicts.refused.report(rt, "refused")?;
        self.runs.refused.report(rt, "run refused")?;
        for ending in Ending::ALL {
            println!(rt; "{ending}: {}", self.runs.ended[ending as usize])?;
        }
        Ok(())
    }
}

impl Worked {
    // A file that was accepted: whether verify accepts it, and whether it stays the same.
    pub(crate) fn accepted(&mut self, verified: bool, same_again: bool) {
        if verified {
            up(&mut self.verified);
        }
        if same_again {
            up(&mut self.same_again);
        }
    }

    // A file that was refused, and whether its bytes are as they came.
    pub(crate) fn refused(&mut self, kept: bool) {
        if kept {
            up(&mut self.kept);
        }
    }

    // A loop, and whether its r0 is claimed to be anything.
    pub(crate) fn claimed(&mut self, anything: bool) {
        up(if anything {
            &mut self.widened
        } else {
            &mut self.narrow
        });
    }

    pub(crate) fn report(&self, rt: &impl Print) -> io::Result<()> {
        println!(rt; "claims worked out alike {}", self.verdicts.agreement)?;
        line(rt, "worked out and accepted", self.verdicts.accepted)?;
        line(rt, "then verified", self.verified)?;
        line(rt, "the same when worked out again", self.same_again)?;
        self.verdicts.refused.report(rt, "worked out and refused")?;
        line(rt, "refused with the bytes as they came", self.kept)?;
        line(rt, "loops whose r0 is widened to anything", self.widened)?;
        line(rt, "loops whose r0 keeps a range", self.narrow)
    }
}
