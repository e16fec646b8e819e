// The known outcomes of document 01 that are not proved, and outcomes of document 02's ticket 1: each line has its name,
// and then both implementations' answers. The loop again, with the budgets of ticket 6.
use super::answer::Ending::{Spent, Trapped};
use super::answer::{Ending, PAST, Ran, Start, Told};
use super::build::Op::{Addi, Branch, Guard, Halt, Jump, Load, Set};
use super::build::{ANYTHING, Code, File, Kind, Layout, LongFile, MOST, Span};
use super::device::Device;
use super::score::Score;
use super::side::Side;
use std::fmt::Display;
use std::{fmt, io};

const BASE: u32 = 536870912;

const SIZE: u32 = 4096;

// The region's last address, DL.
const LAST: u32 = BASE + SIZE - 1;

// A module: the index of each inner door, and what it claims of r1 and of r2; and the instructions.
#[derive(Clone, Copy)]
struct Module {
    base: u32,
    guard: u32,
    doors: &'static [(u32, Span, Span)],
    code: &'static [Code],
}

const LOOP: Module = Module {
    base: BASE,
    guard: 256,
    doors: &[(1, (BASE, LAST + 4), ANYTHING)],
    code: &[
        (Guard, [1, 0, 0, 0]),
        (Load, [0, 1, 4, 0]),
        (Addi, [1, 0, 0, 4]),
        (Jump, [0, 0, 0, 1]),
    ],
};

const STEREO: Module = Module {
    base: BASE,
    guard: 256,
    doors: &[(1, (BASE, LAST + 1), ANYTHING)],
    code: &[
        (Guard, [1, 0, 0, 0]),
        (Load, [0, 1, 2, 0]),
        (Load, [2, 1, 2, 2]),
        (Addi, [1, 0, 0, 4]),
        (Jump, [0, 0, 0, 1]),
    ],
};

const RIGHT_ONLY: Module = Module {
    base: BASE,
    guard: 256,
    doors: &[(1, (BASE, LAST + 4), ANYTHING)],
    code: &[
        (Guard, [1, 0, 0, 0]),
        (Load, [0, 1, 2, 2]),
        (Addi, [1, 0, 0, 4]),
        (Jump, [0, 0, 0, 1]),
    ],
};

// Accepted before ticket 1, as rule N's cut took no account of the width.
const EMPTY_N: Module = Module {
    base: BASE,
    guard: 256,
    doors: &[
        (1, (LAST - 1, LAST + 100), ANYTHING),
        (2, (LAST - 1, LAST), ANYTHING),
    ],
    code: &[
        (Set, [1, 0, 0, LAST - 1]),
        (Load, [0, 1, 4, 0]),
        (Halt, [0, 0, 0, 0]),
    ],
};

// Accepted before ticket 1: what rule N now cuts off is what rule B's cut left.
const EMPTY_B: Module = Module {
    base: BASE,
    guard: 256,
    doors: &[
        (2, (LAST - 5, LAST + 50), (LAST, LAST + 1)),
        (4, (LAST, LAST + 50), ANYTHING),
    ],
    code: &[
        (Set, [1, 0, 0, LAST]),
        (Set, [2, 0, 0, LAST]),
        (Load, [0, 1, 1, 1]),
        (Branch, [1, 2, 1, 0]),
        (Halt, [0, 0, 0, 0]),
    ],
};

// From r1 = 0 the address wraps into the region, while exact r1 - 16 lies below it: the load is done, but r1 is outside
// rule N's cut. So the cut tells the truth only where the access keeps 10.
const WRAPPED: Module = Module {
    base: MOST - 4095,
    guard: 0,
    doors: &[],
    code: &[(Load, [0, 1, 4, MOST - 15]), (Halt, [0, 0, 0, 0])],
};

impl Module {
    fn file(&self) -> File {
        let layout = Layout::from([self.base, SIZE, self.guard]);
        let mut file = File::of(layout, self.code, self.doors.len());
        file.put_door(0, 0, Kind::Open);
        for (j, door) in (1..).zip(self.doors) {
            let &(index, first, second) = door;
            file.put_door(j, index, Kind::Inner);
            file.put_claim(j, 1, first);
            file.put_claim(j, 2, second);
        }
        file
    }
}

// A run as it is printed, with what register r holds after it.
#[derive(Clone, Copy)]
struct Seen {
    ran: Ran,
    r: usize,
}

impl Display for Seen {
    fn fmt<W: fmt::Write>(&self, f: &mut fmt::Formatter<W>) -> fmt::Result {
        let ran = &self.ran;
        let r = self.r % 8;
        write!(
            f,
            "{}, steps {}, place {}, r{r} {}",
            Told(ran.outcome),
            ran.steps,
            ran.place,
            ran.registers[r]
        )
    }
}

fn verdicts(rt: &impl Print, words: &str, device: Device, file: &[u8]) -> io::Result<()> {
    let ours = Told(Side::Ours.verify(device, file));
    let theirs = Told(Side::Theirs.verify(device, file));
    println!(rt; "{words}: {ours} and {theirs}")
}

fn module_verdicts(rt: &impl Print, words: &str, module: &Module) -> io::Result<()> {
    verdicts(rt, words, Device::Box, module.file().as_slice())
}

// The loop, with this guard, and with r1 claimed to be at most this.
fn loop_verdicts(rt: &impl Print, words: &str, guard: u32, most: u32) -> io::Result<()> {
    let mut file = Module { guard, ..LOOP }.file();
    file.put_claim(1, 1, (BASE, most));
    verdicts(rt, words, Device::Box, file.as_slice())
}

// A run with 0 in every register, over a memory of sevens that holds the region.
fn run_of(side: Side, file: &[u8], budget: u64) -> Ran {
    let start = Start {
        registers: [0; 8],
        place: 0,
        offset: 300,
        budget,
    };
    let mut memory = [7u8; 5000];
    side.run(Device::Box, file, &start, &mut memory)
}

// The module's run; register r is shown.
fn runs(rt: &impl Print, words: &str, module: &Module, r: usize) -> io::Result<()> {
    let file = module.file();
    let seen = |side| Seen {
        ran: run_of(side, file.as_slice(), 10000),
        r,
    };
    let ours = seen(Side::Ours);
    let theirs = seen(Side::Theirs);
    println!(rt; "{words}: {ours} and {theirs}")
}

// Of ticket 6: a budget for the loop, how its run ends with it, and after how many steps.
pub type BudgetRow = (u64, Ending, u64);

pub const BUDGETS: [BudgetRow; 10] = [
    (0, Spent, 0),
    (3073, Spent, 3073),
    (3074, Trapped, 3074),
    (PAST - 1, Trapped, 3074),
    (PAST, Trapped, 3074),
    (PAST + 2, Trapped, 3074),
    (PAST + 3073, Trapped, 3074),
    (1 << 63, Trapped, 3074),
    (u64::MAX - PAST + 1, Trapped, 3074),
    (u64::MAX, Trapped, 3074),
];

pub(crate) fn budget_row(score: &mut Score, row: &BudgetRow) {
    let &(budget, ending, steps) = row;
    let file = LOOP.file();
    score.ask(|side| {
        let ran = run_of(side, file.as_slice(), budget);
        ran.outcome == Ok(ending) && ran.steps == steps
    });
}

fn known_loop(rt: &impl Print) -> io::Result<()> {
    loop_verdicts(rt, "the loop", 256, LAST + 4)?;
    loop_verdicts(rt, "the loop with guard 7", 7, LAST + 4)?;
    loop_verdicts(rt, "the loop with guard 6", 6, LAST + 4)?;
    loop_verdicts(rt, "the loop with r1 claimed DB to DL", 256, LAST)?;
    verdicts(rt, "the empty module", Device::Box, b"")?;
    runs(rt, "the loop's run", &LOOP, 1)
}

fn known_turns(rt: &impl Print) -> io::Result<()> {
    module_verdicts(rt, "stereo", &STEREO)?;
    module_verdicts(rt, "stereo, the right sample only", &RIGHT_ONLY)?;
    module_verdicts(rt, "an empty cut of rule N", &EMPTY_N)?;
    module_verdicts(rt, "a cut of rule N that empties one of rule B", &EMPTY_B)?;
    module_verdicts(rt, "a load whose address wraps", &WRAPPED)?;
    runs(rt, "its run", &WRAPPED, 0)
}

// The loop, and one instruction more than the plate holds.
fn known_devices(rt: &impl Print) -> io::Result<()> {
    let mut halts = LongFile::new(Layout::from([BASE, SIZE, 256]), 513, 1);
    halts.put_door(0, 0, Kind::Open);
    verdicts(
        rt,
        "the loop on the plate",
        Device::Plate,
        LOOP.file().as_slice(),
    )?;
    verdicts(
        rt,
        "513 halts on the plate",
        Device::Plate,
        halts.as_slice(),
    )?;
    verdicts(rt, "513 halts on the box", Device::Box, halts.as_slice())
}

pub(crate) fn known(rt: &impl Print) -> io::Result<()> {
    known_loop(rt)?;
    known_turns(rt)?;
    known_devices(rt)
}
