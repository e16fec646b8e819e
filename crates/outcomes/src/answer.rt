// The answers of both implementations in one form, in which a refusal has the number that document 01 gives its rule: the
// tables and the lines that are printed have it too.
use std::fmt;
use std::fmt::Display;

#[derive(Clone, Copy, PartialEq, Eq)]
pub struct Counts {
    pub instructions: u32,
    pub doors: u32,
}

#[derive(Clone, Copy, PartialEq, Eq)]
pub struct Fault {
    pub number: u32,
    pub place: u32,
}

// Refusal 17.
pub const OVER_PLATE: Fault = Fault {
    number: 17,
    place: 0,
};

// As a table has it: the number and the place.
impl From<(u32, u32)> for Fault {
    fn from(row: (u32, u32)) -> Fault {
        let (number, place) = row;
        Fault { number, place }
    }
}

pub type Verdict = Result<Counts, Fault>;

#[derive(Clone, Copy, PartialEq, Eq)]
pub enum Ending {
    Halted,
    Trapped,
    TurnedAway,
    Strayed,
    Spent,
}

impl Ending {
    pub const ALL: [Ending; 5] = [
        Ending::Halted,
        Ending::Trapped,
        Ending::TurnedAway,
        Ending::Strayed,
        Ending::Spent,
    ];
}

#[derive(Clone, Copy, PartialEq, Eq)]
pub struct Ran {
    pub registers: [u32; 8],
    pub place: u16,
    pub steps: u64,
    pub outcome: Result<Ending, Fault>,
}

// The first budget that 32 bits don't hold: cut to them it leaves no step.
pub const PAST: u64 = 1 << 32;

// What the host gives to a run, but for the file and the memory. (Its registers and those above are of two structs, no columns of one.)
#[derive(Clone, Copy)]
pub struct Start {
    pub registers: [u32; 8],
    pub place: u16,
    pub offset: usize,
    pub budget: u64,
}

impl Start {
    // The answer to a run that is refused: nothing has moved.
    pub(crate) fn refused(&self, fault: Fault) -> Ran {
        Ran {
            registers: self.registers,
            place: self.place,
            steps: 0,
            outcome: Err(fault),
        }
    }
}

// This and the next are alike but for a word, and each names its own fields.
impl Display for Counts {
    fn fmt<W: fmt::Write>(&self, f: &mut fmt::Formatter<W>) -> fmt::Result {
        write!(f, "accepted {} {}", self.instructions, self.doors)
    }
}

impl Display for Fault {
    fn fmt<W: fmt::Write>(&self, f: &mut fmt::Formatter<W>) -> fmt::Result {
        write!(f, "refused {} {}", self.number, self.place)
    }
}

impl Display for Ending {
    fn fmt<W: fmt::Write>(&self, f: &mut fmt::Formatter<W>) -> fmt::Result {
        f.write_str(match self {
            Ending::Halted => "halted",
            Ending::Trapped => "trapped",
            Ending::TurnedAway => "turned away",
            Ending::Strayed => "strayed",
            Ending::Spent => "spent",
        })
    }
}

// An answer as it is printed, be it refused or not.
#[derive(Clone, Copy)]
pub struct Told<T>(pub Result<T, Fault>);

impl<T: Display> Display for Told<T> {
    fn fmt<W: fmt::Write>(&self, f: &mut fmt::Formatter<W>) -> fmt::Result {
        match &self.0 {
            Ok(given) => write!(f, "{given}"),
            Err(fault) => write!(f, "{fault}"),
        }
    }
}
