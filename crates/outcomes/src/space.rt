// Single accesses in regions at both ends of the address space, where a sum or a distance passes 2^32, and with the
// guard at its most, narrower than an access, and none.
use super::answer::Ending;
use super::answer::Ending::{Spent, Strayed, Trapped};
use super::build::{MOST, Op};
use super::edge::{DB, DL};
use super::score::Score;
use super::step::{FIVE_TO_EIGHT, HELD, State, Step, access};

// Base and guard; w and the address; how the access ends, and r2 after it.
pub type SpaceRow = (u32, u32, u32, u32, Ending, u32);

pub const SPACE: [SpaceRow; 39] = [
    (0, 0, 1, 0, Spent, 1),
    (0, 0, 4, 252, Spent, FIVE_TO_EIGHT),
    (0, 0, 1, 256, Strayed, HELD),
    (0, 0, 4, 253, Strayed, HELD),
    (0, 0, 1, MOST, Strayed, HELD),
    (0, 0, 4, MOST, Strayed, HELD),
    (256, 256, 1, 256, Spent, 1),
    (256, 256, 4, 0, Trapped, HELD),
    (256, 256, 4, 253, Trapped, HELD),
    (256, 256, 4, 509, Trapped, HELD),
    (256, 256, 4, 764, Trapped, HELD),
    (256, 256, 4, 765, Strayed, HELD),
    (256, 256, 1, MOST, Strayed, HELD),
    (256, 256, 4, MOST, Strayed, HELD),
    (MOST - 255, 0, 1, MOST - 255, Spent, 1),
    (MOST - 255, 0, 2, MOST - 1, Spent, 2055),
    (MOST - 255, 0, 4, MOST - 3, Spent, FIVE_TO_EIGHT),
    (MOST - 255, 0, 2, MOST, Strayed, HELD),
    (MOST - 255, 0, 4, MOST - 2, Strayed, HELD),
    (MOST - 255, 0, 1, MOST - 256, Strayed, HELD),
    (MOST - 255, 0, 4, MOST - 256, Strayed, HELD),
    (MOST - 255, 0, 1, 0, Strayed, HELD),
    (MOST - 511, 256, 4, MOST - 259, Spent, FIVE_TO_EIGHT),
    (MOST - 511, 256, 1, MOST, Trapped, HELD),
    (MOST - 511, 256, 4, MOST - 3, Trapped, HELD),
    (MOST - 511, 256, 4, MOST - 2, Strayed, HELD),
    (MOST - 511, 256, 4, MOST - 767, Trapped, HELD),
    (MOST - 511, 256, 4, MOST - 768, Strayed, HELD),
    (MOST - 511, 256, 1, 0, Strayed, HELD),
    (DB, 4096, 1, DB - 4096, Trapped, HELD),
    (DB, 4096, 4, DL + 4093, Trapped, HELD),
    (DB, 4096, 1, DB - 4097, Strayed, HELD),
    (DB, 4096, 4, DL + 4094, Strayed, HELD),
    (DB, 3, 4, DB - 3, Trapped, HELD),
    (DB, 3, 4, DL, Trapped, HELD),
    (DB, 3, 4, DB - 4, Strayed, HELD),
    (DB, 3, 4, DL + 1, Strayed, HELD),
    (DB, 0, 4, DB - 1, Strayed, HELD),
    (DB, 0, 1, DL + 1, Strayed, HELD),
];

// Each as a load, and as a store too where it ends the run.
pub(crate) fn space_row(score: &mut Score, row: &SpaceRow) {
    let &(base, guard, w, address, ending, r2) = row;
    let before = State::of([0, address, HELD]);
    let after = State::of([0, address, r2]);
    let done = ending == Spent;
    let load = Step {
        base,
        guard,
        place: u16::from(done),
        ending,
        ..Step::of(access(Op::Load, w), before, after)
    };
    load.ask(score);
    if !done {
        let x = access(Op::Store, w);
        Step { x, ..load }.ask(score);
    }
}
