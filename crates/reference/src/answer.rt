// The answers: the documents' refusals, counts and endings.
ghost use Rattle.std.specs.Prelude.{◌≡◌, ◌%◌};

// The rules of refusals 1 to 17, in the documents' words. Their numbers, and those of the endings, are matches: with the numbers beside
// the names a wrong one could not be tried, as no two may be the same.
#[derive(Clone, Copy, PartialEq, Eq)]
pub enum Rule {
    Short,
    WrongTag,
    BadLength,
    Tail,
    BadLayout,
    BadInstruction,
    BadDoor,
    NoDoor,
    UncheckedJump,
    WildAccess,
    BrokenClaim,
    NoWayIn,
    RunsOff,
    BadPlace,
    NoGround,
    NoSpace,
    OverPlate,
}

impl From<Rule> for u32 {
    ghost use Rattle.reference.specs.Numbers.{rule_number};

    ghost from_gives = { λ rule number. number ≡ rule_number rule };

    fn from(rule: Rule) -> u32 {
        match rule {
            Rule::Short => 1,
            Rule::WrongTag => 2,
            Rule::BadLength => 3,
            Rule::Tail => 4,
            Rule::BadLayout => 5,
            Rule::BadInstruction => 6,
            Rule::BadDoor => 7,
            Rule::NoDoor => 8,
            Rule::UncheckedJump => 9,
            Rule::WildAccess => 10,
            Rule::BrokenClaim => 11,
            Rule::NoWayIn => 12,
            Rule::RunsOff => 13,
            Rule::BadPlace => 14,
            Rule::NoGround => 15,
            Rule::NoSpace => 16,
            Rule::OverPlate => 17,
        }
    }
}

// The rule that is broken, and where: an offset, an index or a door's number.
#[derive(Clone, Copy, PartialEq, Eq)]
pub struct Refusal {
    pub rule: Rule,
    pub place: u32,
}

impl Refusal {
    pub(crate) fn at(rule: Rule, place: usize) -> Refusal
        ensures is { result.rule ≡ rule }
        ensures lies { result.place ≡ place % 4294967296 }
    {
        Refusal {
            rule,
            // The remainder is written out, since `as` must lose nothing.
            place: (place % (1 << 32)) as u32,
        }
    }
}

#[derive(Clone, Copy, PartialEq, Eq)]
pub struct Counts {
    pub instructions: u32,
    pub doors: u32,
}

#[derive(Clone, Copy, PartialEq, Eq)]
pub enum Ending {
    Halted,
    Trapped,
    TurnedAway,
    Strayed,
    Spent,
}

impl From<Ending> for u32 {
    ghost use Rattle.reference.specs.Numbers.{ending_number};

    ghost from_gives = { λ ending number. number ≡ ending_number ending };

    fn from(ending: Ending) -> u32 {
        match ending {
            Ending::Halted => 0,
            Ending::Trapped => 1,
            Ending::TurnedAway => 2,
            Ending::Strayed => 3,
            Ending::Spent => 4,
        }
    }
}

// How a run leaves the machine, in how many steps, and its ending or refusal.
#[derive(Clone, Copy, PartialEq, Eq)]
pub struct Ran {
    pub registers: [u32; 8],
    pub place: u16,
    pub steps: u64,
    pub outcome: Result<Ending, Refusal>,
}
