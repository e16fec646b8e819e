// How many answers were asked for, how many of each writer's are right, and how often the second writer gave which.
use super::answer::Answer;
use super::both::Both;
use std::{fmt, io};

#[derive(Clone, Copy, Default)]
pub struct Score {
    asked: u32,
    ours: u32,
    theirs: u32,
    // Files that were written, and refusals by their number.
    written: u32,
    refused: [u32; 17],
}

fn count(number: &mut u32, yes: bool) {
    *number = number.wrapping_add(u32::from(yes));
}

impl Score {
    pub(crate) fn note(&mut self, both: Both, asked: Answer) {
        count(&mut self.asked, true);
        count(&mut self.ours, both.good && both.ours == asked);
        count(&mut self.theirs, both.good && both.theirs == asked);
        match both.theirs {
            Ok(_) => count(&mut self.written, true),
            Err(fault) => {
                if let Some(number) = self.refused.get_mut(fault.number as usize) {
                    count(number, true);
                }
            }
        }
    }

    // Each answer that was given. Lines and no `Display`: how many they are depends on the answers.
    pub(crate) fn print_answers(&self, rt: &impl Print) -> io::Result<()> {
        println!(rt; "written: {}", self.written)?;
        for (number, given) in self.refused.iter().enumerate() {
            if 0 < *given {
                println!(rt; "refused {number}: {given}")?;
            }
        }
        Ok(())
    }
}

impl fmt::Display for Score {
    fn fmt<W: fmt::Write>(&self, f: &mut fmt::Formatter<W>) -> fmt::Result {
        write!(f, "{} and {} of {}", self.ours, self.theirs, self.asked)
    }
}
