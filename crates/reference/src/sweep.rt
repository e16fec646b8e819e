// The sweeps of ticket 3 of document 02.
ghost use Rattle.std.specs.Prelude.{◌≡◌};

use super::door::Kind;
use super::know::Known;
use super::load::{Module, next};
use super::widen::Work;

// More sweeps than there can be: 73 for each of 256 doors, and one.
const MOST_SWEEPS: u32 = 18689;

impl Module {
    // The inner door at an index, by its number. An open door's claim is fixed.
    fn inner(&self, i: usize) -> Option<u8> {
        let mark = self.door(i)?;
        (mark.kind == Kind::Inner).then_some(mark.number)
    }

    fn unreached(&self, work: &Work, i: usize) -> Option<u8> {
        let door = self.inner(i)?;
        (!work.is_reached(door)).then_some(door)
    }

    // An edge to what is no inner door is passed over.
    fn edge(&self, work: &mut Work, to: usize, known: &Known) {
        if let Some(door) = self.inner(to) {
            work.widen(door, known);
        }
    }

    // What is known at an index, where this or nothing came from the one before. At a door it is the claim that stands
    // there now.
    fn arrive(&self, work: &Work, i: usize, came: Option<Known>) -> Option<Known> {
        let Some(mark) = self.door(i) else {
            return came;
        };
        if self.unreached(work, i).is_some() {
            return None;
        }
        Some(work.claim(mark.number))
    }

    // One index, its taken edge before its next one; and what goes on from it to the next index.
    fn visit(&self, work: &mut Work, i: usize, came: Option<Known>) -> Option<Known> {
        let known = self.arrive(work, i, came)?;
        let x = self.at(i);
        if x.jumps() {
            self.edge(work, x.imm as usize, &known.taken(x));
        }
        if x.ends() {
            return None;
        }
        let after = known.after(x, self.shape.layout);
        self.edge(work, next(i), &after);
        Some(after)
    }

    fn sweep_once(&self, work: &mut Work) {
        let mut came = Some(Known::ANYTHING);
        for i in 0..self.shape.n {
            came = self.visit(work, i, came);
        }
    }

    // Whether a sweep was the last one. Where it changed nothing, the lowest unreached door counts as reached: what its
    // claim has been so far is anything.
    fn was_last(&self, work: &mut Work) -> bool {
        if work.has_changed() {
            return false;
        }
        match (0..self.shape.n).find_map(|i| self.unreached(work, i)) {
            Some(door) => {
                work.reach(door);
                false
            }
            None => true,
        }
    }

    // The claims become what the sweeps leave them.
    pub(crate) fn work_out(&mut self)
        ensures { self.new.shape ≡ self.old.shape }
    {
        let mut work = Work::new();
        for sweep in 1..=MOST_SWEEPS {
            work.begin(sweep);
            self.sweep_once(&mut work);
            if self.was_last(&mut work) {
                break;
            }
        }
        work.lay(&mut self.claims);
    }
}
