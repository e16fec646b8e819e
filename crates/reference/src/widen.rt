// The claims that are worked out, and beside them the doors' growth. Sweeps count from 1.
use super::know::{Known, Span};

// In how many sweeps a register has grown, and in which one last.
#[derive(Clone, Copy)]
struct Growth {
    times: u32,
    latest: u32,
}

impl Growth {
    // The growth with one in a sweep, which counts once.
    fn with(self, sweep: u32) -> Growth {
        if self.latest == sweep {
            self
        } else {
            Growth {
                times: self.times.wrapping_add(1),
                latest: sweep,
            }
        }
    }
}

// A door's claim as it stands, none while the door is unreached, and the growth of r0 to r7.
#[derive(Clone, Copy)]
struct Claim {
    known: Option<Known>,
    growth: [Growth; 8],
}

impl Claim {
    const UNREACHED: Claim = Claim {
        known: None,
        growth: [Growth {
            times: 0,
            latest: 0,
        }; 8],
    };

    // A register of a reached door: the smallest range that covers both its claim and x, or anything if it has grown in
    // eight sweeps before this one. The answer is whether it has changed.
    fn grow(&mut self, claim: &mut Known, r: u32, x: Span, sweep: u32) -> bool {
        let y = claim.of(r);
        if x.lies_in(y) {
            return false;
        }
        let growth = self.growth[r as usize % 8].with(sweep);
        self.growth[r as usize % 8] = growth;
        let grown = if 8 < growth.times {
            Span::ANYTHING
        } else {
            x.joined(y)
        };
        *claim = claim.with(r, grown);
        true
    }

    // The claim covers what is known. The first reaching of a door is no growth, and a change.
    fn widen(&mut self, known: &Known, sweep: u32) -> bool {
        let Some(mut claim) = self.known else {
            self.known = Some(*known);
            return true;
        };
        let mut changed = false;
        for r in 0..8 {
            changed |= self.grow(&mut claim, r, known.of(r), sweep);
        }
        self.known = Some(claim);
        changed
    }
}

// The doors by number, the sweep that is being made, and the last one that changed anything.
#[derive(Clone, Copy)]
pub(crate) struct Work {
    doors: [Claim; 256],
    sweep: u32,
    changed: u32,
}

impl Work {
    // Claims that are anything, of doors that are all unreached but the open ones.
    pub(crate) fn new() -> Work {
        Work {
            doors: [Claim::UNREACHED; 256],
            sweep: 0,
            changed: 0,
        }
    }

    pub(crate) fn begin(&mut self, sweep: u32) {
        self.sweep = sweep;
    }

    // Whether this sweep has changed anything.
    pub(crate) fn has_changed(&self) -> bool {
        self.changed == self.sweep
    }

    pub(crate) fn claim(&self, door: u8) -> Known {
        self.doors[usize::from(door)]
            .known
            .unwrap_or(Known::ANYTHING)
    }

    pub(crate) fn is_reached(&self, door: u8) -> bool {
        self.doors[usize::from(door)].known.is_some()
    }

    pub(crate) fn reach(&mut self, door: u8) {
        self.doors[usize::from(door)].known = Some(Known::ANYTHING);
    }

    // An inner door's claim covers what is known.
    pub(crate) fn widen(&mut self, door: u8, known: &Known) {
        if self.doors[usize::from(door)].widen(known, self.sweep) {
            self.changed = self.sweep;
        }
    }

    // The claims over those that stand there.
    pub(crate) fn lay(&self, claims: &mut [Known; 256]) {
        for (claim, door) in claims.iter_mut().zip(self.doors.iter()) {
            *claim = door.known.unwrap_or(Known::ANYTHING);
        }
    }
}
