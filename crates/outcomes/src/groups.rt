// The known cases, group by group: how many there are, and how many each implementation answers as documents 01 and 02
// say.
use super::doors::{
    CHANGED, LOOKUPS, MISPLACED, changed_row, judged_row, misplaced_row, stepped_row, widened_row,
};
use super::edge::{access_row, cut_row, range_row, width_row};
use super::known::{BUDGETS, budget_row};
use super::limit::{CHAINS, COUNTS, chain_row, count_row};
use super::order::{JUMPS, LAYOUTS, ORDERS, SPOILED, layout_row, order_row, spoiled_row};
use super::plate::{
    HOLDINGS, LATER, SETTINGS, SOONER, holding_row, later_row, setting_row, sooner_row,
};
use super::range::{ACCESSES, CUTS, MOVES, RULE_B, RULE_N, RULE_W, SHIFTS};
use super::sample::{SAMPLES, WIDTHS, sample_row};
use super::score::Score;
use super::space::{SPACE, space_row};
use super::step::{DONE, ENDS, OTHERS, ROOMS, done_row, end_row, other_row, room_row};
use super::worked::{MODULES, claims_row};
use std::io;

// The program `written` has its like; one for both would need a trait for their two scores, and be longer.
fn group<R, F: Fn(&mut Score, &R)>(
    rt: &impl Print,
    words: &str,
    rows: &[R],
    ask: F,
) -> io::Result<()>
    requires { F.IsAlwaysCallable ask }
{
    let mut score = Score::default();
    for row in rows {
        ask(&mut score, row);
    }
    println!(rt; "{words}: {score}")
}

fn ranges(rt: &impl Print) -> io::Result<()> {
    group(rt, "rule B", &RULE_B, range_row)?;
    group(rt, "rule N and loads", &RULE_N, range_row)?;
    group(rt, "rule N's cuts", &CUTS, cut_row)?;
    group(rt, "accesses at the guard's edges", &ACCESSES, access_row)?;
    group(rt, "rule W", &RULE_W, range_row)?;
    group(rt, "set, copy, andi and guard", &MOVES, range_row)?;
    group(rt, "shifts", &SHIFTS, range_row)
}

fn judgements(rt: &impl Print) -> io::Result<()> {
    group(rt, "the order of 8 to 13", &ORDERS, order_row)?;
    group(rt, "checks and places of jumps", &JUMPS, order_row)?;
    group(rt, "the order of 4 to 7", &SPOILED, spoiled_row)?;
    group(rt, "layouts", &LAYOUTS, layout_row)?;
    group(rt, "limits of 4096 and 256", &COUNTS, count_row)
}

fn steps(rt: &impl Print) -> io::Result<()> {
    group(rt, "room for the region", &ROOMS, room_row)?;
    group(rt, "accesses that are done", &DONE, done_row)?;
    group(rt, "accesses that end the run", &ENDS, end_row)?;
    group(
        rt,
        "accesses at the ends of the address space",
        &SPACE,
        space_row,
    )?;
    group(rt, "jumps, tests and values", &OTHERS, other_row)?;
    group(rt, "signed samples", &SAMPLES, sample_row)?;
    group(rt, "budgets past 32 bits", &BUDGETS, budget_row)
}

// Doors by groups of 64 indexes.
fn lookups(rt: &impl Print) -> io::Result<()> {
    group(rt, "jumps to doors in groups of 64", &LOOKUPS, judged_row)?;
    group(rt, "steps to doors in groups of 64", &LOOKUPS, stepped_row)?;
    group(rt, "claims of doors in groups of 64", &LOOKUPS, widened_row)?;
    group(rt, "code at doors in groups of 64", &CHANGED, changed_row)?;
    group(rt, "doors that are out of place", &MISPLACED, misplaced_row)
}

fn devices(rt: &impl Print) -> io::Result<()> {
    group(rt, "what box and plate hold", &HOLDINGS, holding_row)?;
    group(rt, "1 to 7 before 17", &SOONER, sooner_row)?;
    group(rt, "8 to 13 after 17", &LATER, later_row)?;
    group(rt, "14 and 15 after 17", &SETTINGS, setting_row)
}

pub(crate) fn groups(rt: &impl Print) -> io::Result<()> {
    ranges(rt)?;
    judgements(rt)?;
    steps(rt)?;
    group(rt, "widths of loads and stores", &WIDTHS, width_row)?;
    group(rt, "claims that are worked out", &MODULES, claims_row)?;
    group(rt, "claims of 256 doors", &CHAINS, chain_row)?;
    lookups(rt)?;
    devices(rt)
}
