// The types that the gatekeeper's crates share. What they mean is defined in specs/, beside the sentences of document 01.
#![tactic(auto)]

ghost use Rattle.std.specs.Prelude.{◌≡◌, ◌≤◌};
ghost use Rattle.model.specs.Answers.{rule_number, ending_number};
ghost use Rattle.model.specs.Instructions.{bytes_of, width_read};
ghost use Rattle.model.specs.Writer.{load_width_number, test_number};

use std::fmt;

// How many bytes a load or store moves.
#[derive(Clone, Copy)]
pub enum Width {
    One = 1,
    Two = 2,
    Four = 4,
}

// The number of them.
impl From<Width> for u32 {
    ghost from_gives = { λ width bytes. (bytes ≡ bytes_of width) × (bytes ≤ 4) };

    fn from(width: Width) -> u32 {
        width as u32
    }
}

// What a load reads and carries up: some bytes with zeros above them, or one or two with their sign. No width and a flag: four bytes
// have no sign to carry.
#[derive(Clone, Copy)]
pub enum LoadWidth {
    Unsigned { width: Width },
    SignedOne,
    SignedTwo,
}

// How many bytes it reads.
pub fn width_read(width: LoadWidth) -> Width
    ensures { result ≡ width_read width }
{
    match width {
        LoadWidth::Unsigned { width } => width,
        LoadWidth::SignedOne => Width::One,
        LoadWidth::SignedTwo => Width::Two,
    }
}

// Its number, as w of a load has it.
impl From<LoadWidth> for u32 {
    ghost from_gives = { λ width number. number ≡ load_width_number width };

    fn from(width: LoadWidth) -> u32 {
        match width {
            LoadWidth::Unsigned { width } => u32::from(width),
            LoadWidth::SignedOne => 129,
            LoadWidth::SignedTwo => 130,
        }
    }
}

// What a branch tests of its registers a and b: a = b, a < b unsigned, a < b signed.
#[derive(Clone, Copy)]
pub enum Test {
    Equal = 0,
    Below = 1,
    SignedBelow = 2,
}

// Its number, as w of a branch has it.
impl From<Test> for u32 {
    ghost from_gives = { λ test number. number ≡ test_number test };

    fn from(test: Test) -> u32 {
        test as u32
    }
}

// A decoded instruction: one of sixteen kinds, in the order of their opcodes, each with its own operands only.
// a and b are registers, imm is the operand of that name, to is the index that a jump or branch goes to.
#[derive(Clone, Copy)]
pub enum Instruction {
    Halt,
    Set {
        a: u8,
        imm: u32,
    },
    Copy {
        a: u8,
        b: u8,
    },
    Add {
        a: u8,
        b: u8,
    },
    Addi {
        a: u8,
        imm: i32,
    },
    Sub {
        a: u8,
        b: u8,
    },
    Andi {
        a: u8,
        imm: u32,
    },
    Guard {
        a: u8,
    },
    Shr {
        a: u8,
        amount: u8,
    },
    Sar {
        a: u8,
        amount: u8,
    },
    Load {
        a: u8,
        b: u8,
        width: LoadWidth,
        imm: i32,
    },
    Store {
        a: u8,
        b: u8,
        width: Width,
        imm: i32,
    },
    Jump {
        to: usize,
    },
    Branch {
        a: u8,
        b: u8,
        test: Test,
        to: usize,
    },
    Check {
        a: u8,
    },
    Jumpr {
        a: u8,
    },
}

// Where the region lies in the module's addresses, and how many guard bytes stand below and above it.
#[derive(Clone, Copy, PartialEq, Eq)]
pub struct Layout {
    pub base: u32,
    pub size: u32,
    pub guard: u32,
}

// The values that one register may hold: from low to high, both included.
#[derive(Clone, Copy)]
pub struct Range {
    pub low: u32,
    pub high: u32,
}

// The ranges of two registers, cut together.
#[derive(Clone, Copy)]
pub struct Pair {
    pub first: Range,
    pub second: Range,
}

// A range for each of the eight registers: the verifier's knowledge, or a target's claim. Two arrays, as document 01 names them.
#[derive(Clone, Copy)]
pub struct Ranges {
    pub lows: [u32; 8],
    pub highs: [u32; 8],
}

// A jump target (document 01: a door). An indirect one (open) may be jumped to through a register, a direct one (inner)
// only by a jump or branch that names it: a flag, since there are two kinds. The claim is what the registers hold on arrival.
#[derive(Clone, Copy)]
pub struct Target {
    pub index: u16,
    pub indirect: bool,
    pub claim: Ranges,
}

// The state that a run changes (the machine record); pc is the index of the next instruction (its place). Hosts in other
// languages lend it too, so its layout is C's.
#[repr(C)]
#[derive(Clone, Copy)]
pub struct Machine {
    pub registers: [u32; 8],
    pub pc: u16,
}

// How a run ends: halted, trapped, turned away, strayed, spent; each has its number.
#[derive(Clone, Copy, PartialEq, Eq)]
pub enum Ending {
    Halted = 0,
    Trapped = 1,
    Denied = 2,
    Violated = 3,
    OutOfBudget = 4,
}

// Its number.
impl From<Ending> for u32 {
    ghost from_gives = { λ ending number. number ≡ ending_number ending };

    #[tactic(auto, unfolding(crate::specs::Answers::ending_number))]
    fn from(ending: Ending) -> u32 {
        ending as u32
    }
}

impl fmt::Display for Ending {
    fn fmt<W: fmt::Write>(&self, f: &mut fmt::Formatter<W>) -> fmt::Result {
        f.write_str(match self {
            Ending::Halted => "halted",
            Ending::Trapped => "trapped",
            Ending::Denied => "denied",
            Ending::Violated => "violated",
            Ending::OutOfBudget => "out of budget",
        })
    }
}

// What a refusal is for, each with its number: 1 to 15 are document 01's, those from 16 on document 02's.
#[derive(Clone, Copy, PartialEq, Eq)]
pub enum Rule {
    Truncated = 1,
    WrongTag = 2,
    BadLength = 3,
    TrailingBytes = 4,
    BadLayout = 5,
    BadInstruction = 6,
    BadTarget = 7,
    NoTarget = 8,
    UncheckedJump = 9,
    WildAccess = 10,
    BrokenClaim = 11,
    Unreachable = 12,
    FallsOff = 13,
    BadPc = 14,
    NoRoom = 15,
    NoSpace = 16,
    OverPlate = 17,
}

// Its number.
impl From<Rule> for u32 {
    ghost from_gives = { λ rule number. number ≡ rule_number rule };

    #[tactic(auto, unfolding(crate::specs::Answers::rule_number))]
    fn from(rule: Rule) -> u32 {
        rule as u32
    }
}

// A refusal: the rule, and the offset or index where it is broken.
#[derive(Clone, Copy, PartialEq, Eq)]
pub struct Refusal {
    pub rule: Rule,
    pub place: u32,
}

// What a module holds: how many instructions and targets.
#[derive(Clone, Copy, PartialEq, Eq)]
pub struct Contents {
    pub instructions: u32,
    pub targets: u32,
}

impl Rule {
    // The refusal by this rule, at an offset or index.
    pub fn at(self, place: u32) -> Refusal
        ensures { result ≡ record { rule = self; place = place } }
    {
        Refusal { rule: self, place }
    }
}

// How much of a module a device holds (document 02, ticket 8): at most so many instructions and targets. A module that has more is
// refused by 17. Hosts in other languages hand it over too, so its layout is C's.
#[repr(C)]
#[derive(Clone, Copy, PartialEq, Eq)]
pub struct Limits {
    pub instructions: u32,
    pub targets: u32,
}

impl Limits {
    // The box's: as much as a file can have.
    pub const BOX: Limits = Limits {
        instructions: 4096,
        targets: 256,
    };

    // The scale plate's.
    pub const PLATE: Limits = Limits {
        instructions: 512,
        targets: 32,
    };
}

// The verifier's answer: what the accepted module holds, or the first refusal.
pub type Verdict = Result<Contents, Refusal>;

// How many steps: a budget, and the count of steps made. Document 02, ticket 6: "64 bits wide in the machine and the answer."
pub type Steps = u64;

// How many bits that is: of this `CountsCarried` (specs/Promises) says that it is the ticket's width.
pub const STEP_BITS: u32 = Steps::BITS;

// The answer to a call to run: how it ended or the refusal, and how many steps were made.
#[derive(Clone, Copy)]
pub struct Answer {
    pub completion: Result<Ending, Refusal>,
    pub steps: Steps,
}

// The same with the machine afterwards, for a call that takes and returns the machine by value.
#[derive(Clone, Copy)]
pub struct Outcome {
    pub machine: Machine,
    pub answer: Answer,
}
