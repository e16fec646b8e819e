// Doors as rows of numbers: index, kind, and lowest and highest of r0 to r7 in turn.
use super::know::{Known, Span};

#[derive(Clone, Copy, PartialEq, Eq)]
pub(crate) enum Kind {
    Inner,
    Open,
}

#[derive(Clone, Copy)]
pub(crate) struct Door {
    pub(crate) index: usize,
    pub(crate) kind: Kind,
    pub(crate) claim: Known,
}

// None, and no `TryFrom`, since an error would say no more; so `decode` of a row.
fn kind_of(number: u32) -> Option<Kind> {
    match number {
        0 => Some(Kind::Inner),
        1 => Some(Kind::Open),
        _ => None,
    }
}

fn claim_of(row: &[u32; 18]) -> Known {
    let mut claim = Known::ANYTHING;
    for (r, span) in claim.spans.iter_mut().enumerate() {
        *span = Span {
            lo: row[2 + r * 2],
            hi: row[3 + r * 2],
        };
    }
    claim
}

impl Door {
    fn of(row: &[u32; 18]) -> Option<Door> {
        let kind = kind_of(row[1])?;
        Some(Door {
            index: row[0] as usize,
            kind,
            claim: claim_of(row),
        })
    }

    // The door of a row behind one at the index `before`, or of the first row, in a module of n instructions; none where
    // the row is none. Where the claims are `free`, those of inner doors are not looked at, and are anything.
    pub(crate) fn next(
        row: &[u32; 18],
        before: Option<usize>,
        n: usize,
        free: bool,
    ) -> Option<Door> {
        let mut door = Door::of(row)?;
        if free && door.kind == Kind::Inner {
            door.claim = Known::ANYTHING;
        }
        (door.stands(before, n) && door.has_claim()).then_some(door)
    }

    // The first is an open one at 0, and each other one is above the one before it.
    fn stands(&self, before: Option<usize>, n: usize) -> bool {
        match before {
            None => self.index == 0 && self.kind == Kind::Open,
            Some(index) => index < self.index && self.index < n,
        }
    }

    // Whether each lowest is at most its highest, and in an open door each range is anything.
    fn has_claim(&self) -> bool {
        match self.kind {
            Kind::Inner => self.claim.is_ordered(),
            Kind::Open => self.claim == Known::ANYTHING,
        }
    }
}
