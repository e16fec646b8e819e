// Sweeps over the code, which widen the claims in the table until none changes any more. The table has a row for each of the module's
// targets.
//
// The targets' bytes and the rows are passed side by side, as two slices. Of a struct of both each contract would have to say that its
// bytes, and how many rows it has, stay; of a slice that is known. That there are few rows is asked where a row's number is made, since
// a struct has no ghost field beside a `&mut`.
ghost use Rattle.std.specs.Prelude.{◌≡◌, cond, false, Option, Some, None, List, length, map, ℕ, ◌≤◌, ◌<◌, is_none, option_and_then};
ghost use Rattle.std.specs.List.{position};
ghost use Rattle.model.specs.declared.Layout.{Layout};
ghost use Rattle.model.specs.Ranges.{region_range};
ghost use Rattle.model.specs.Program.{Program, code_at};
ghost use Rattle.model.specs.File.{program_of};
ghost use Rattle.model.specs.Lookup.{number_at};
ghost use Rattle.model.specs.Claims.{begun, visit, swept, counted, given, code_of, worked_out};
ghost use Rattle.model.specs.Promises.{AreBytes};
ghost use Rattle.reader.specs.Loading.{Loaded};
ghost use Rattle.reader.specs.Readings.{program};
ghost use Rattle.claims.specs.declared.entry.Row.{Row};
ghost use Rattle.claims.specs.Rows.{FewGrown};
ghost use Rattle.claims.specs.Tables.{row_at, entries_in, table_in, sweep_in, along, listed, HasRows};

use crate::entry::Row;
use lookup::{GROUPS, Indexed};
use model::{Instruction, Range, Ranges};
use ranges::{edges, knowledge};
use reader::module::Module;
use reader::{decode, target};
use verifier::{rules, verify};

// "Open doors are reached with their fixed claim; inner ones begin unreached."
pub(crate) fn begin(targets: &[u8], rows: &mut [Row])
    requires { length rows.old ≤ 256 }
    ensures { (l : Layout) (code : List ℕ) (n : ℕ) → Loaded l code targets.now n (length rows.old) → entries_in targets.now rows.new ≡ map begun (program_of l code targets.now).targets }
{
    for (j, row) in rows.iter_mut().enumerate() {
        let claim = target::is_indirect(targets, j as u32).then_some(knowledge::unknown());
        *row = Row::fresh(claim);
    }
}

// The ranges of an edge arrive at its end: whether anything is changed by now.
fn arrive(
    targets: &[u8],
    there: Option<u32>,
    ranges: Ranges,
    changed: bool,
    rows: &mut [Row],
) -> bool
    requires { (j : ℕ) → there ≡ Some j → j < length rows.old }
    ensures { (to : Option ℕ) → there ≡ option_and_then (number_at (listed targets.now rows.old)) to → table_in targets.now rows.new result ≡ along to ranges (table_in targets.now rows.old changed) }
{
    // "Edges to what is no door are passed over"
    let Some(number) = there else {
        return changed;
    };
    let j = number as usize;
    if rows[j].is_covered(target::is_indirect(targets, number), ranges) {
        return changed;
    }
    rows[j] = rows[j].reach(ranges);
    true
}

// What is known behind an instruction, if it goes on, and whether anything is changed by then.
#[derive(Clone, Copy)]
struct Passed {
    pub changed: bool,
    pub known: Option<Ranges>,
}

// The edges of an instruction: "A branch's taken edge comes before its next one."
fn visit(
    indexed: &Indexed,
    region: Range,
    i: u32,
    instruction: Instruction,
    known: Ranges,
    changed: bool,
    rows: &mut [Row],
) -> Passed
    requires { (i < 4096) × HasRows indexed.now.«module» rows.old }
    ensures { (p : Program) → instruction ≡ code_at p i → region ≡ region_range p.layout → sweep_in indexed.now.«module».targets.now result.known rows.new result.changed ≡ visit p i (Some known) (table_in indexed.now.«module».targets.now rows.old changed) }
{
    let targets = indexed.module.targets;
    let named = rules::target_named(indexed, instruction);
    let taken = edges::after_taken(instruction, known);
    let changed = arrive(targets, named, taken, changed, rows);
    if !rules::falls(instruction) {
        return Passed {
            changed,
            known: None,
        };
    }
    let next = edges::after_next(region, instruction, known);
    let there = indexed.number_at((i + 1) as usize);
    Passed {
        changed: arrive(targets, there, next, changed, rows),
        known: Some(next),
    }
}

// One sweep, upward through the code: whether it changes anything.
fn sweep(indexed: &Indexed, rows: &mut [Row]) -> bool
    requires { HasRows indexed.now.«module» rows.old }
    ensures { table_in indexed.now.«module».targets.now rows.new result ≡ swept (code_of (program indexed.now.«module»)) (entries_in indexed.now.«module».targets.now rows.old) }
{
    let module = &indexed.module;
    let region = verify::region_of(module.layout);
    // What is known, if anything is; "starting with anything".
    let mut known = Some(knowledge::unknown());
    let mut changed = false;
    for i in 0..module.held.instructions {
        // "At a door it takes the claim."
        if let Some(number) = indexed.number_at(i as usize) {
            known = rows[number as usize].claim;
        }
        if let Some(before) = known {
            let passed = visit(
                indexed,
                region,
                i,
                decode::fetch(module.code, i),
                before,
                changed,
                rows,
            );
            changed = passed.changed;
            known = passed.known;
        }
    }
    changed
}

// A sweep is over: what has grown in it is counted.
fn count_growth(rows: &mut [Row])
    requires { (j : ℕ) → j < length rows.old → FewGrown (row_at rows.old j).growth }
    ensures { (targets : List ℕ) → entries_in targets rows.new ≡ map counted (entries_in targets rows.old) }
{
    for row in rows.iter_mut() {
        *row = row.counted();
    }
}

// The lowest unreached target, if there is one.
fn lowest_unreached(rows: &[Row]) -> Option<usize>
    ensures { result ≡ position (λ (row : Row). is_none row.claim) rows.now }
{
    rows.iter().position(|row| row.claim.is_none())
}

// "the lowest unreached door is given anything": whether there was one.
fn give_lowest(rows: &mut [Row]) -> bool
    ensures gives { (targets : List ℕ) → given (entries_in targets rows.old) ≡ cond result (Some (entries_in targets rows.new)) None }
    ensures keeps { result ≡ false → rows.new ≡ rows.old }
{
    let Some(j) = lowest_unreached(rows) else {
        return false;
    };
    rows[j] = Row::fresh(Some(knowledge::unknown()));
    true
}

// Sweep after sweep.
fn sweep_to_end(indexed: &Indexed, rows: &mut [Row])
    requires { HasRows indexed.now.«module» rows.old × AreBytes indexed.now.«module».code.now × (entries_in indexed.now.«module».targets.now rows.old ≡ map begun (program indexed.now.«module»).targets) }
    ensures { entries_in indexed.now.«module».targets.now rows.new ≡ (worked_out (program indexed.now.«module»)).entries }
{
    'sweeps: loop {
        if sweep(indexed, rows) {
            count_growth(rows);
        } else if !give_lowest(rows) {
            return;
        }
    }
}

// The same, by tables made for it. On its own, so that what it needs of the stack is free again when the verifier runs.
#[inline(never)]
pub(crate) fn sweep_all(module: &Module, rows: &mut [Row])
    requires { HasRows «module».now rows.old × AreBytes «module».now.code.now × (entries_in «module».now.targets.now rows.old ≡ map begun (program «module».now).targets) }
    ensures { entries_in «module».now.targets.now rows.new ≡ (worked_out (program «module».now)).entries }
{
    let mut bits = [0; GROUPS];
    let mut counts = [0; GROUPS];
    sweep_to_end(&Indexed::of(*module, &mut bits, &mut counts), rows);
}
