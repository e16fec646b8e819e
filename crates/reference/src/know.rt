// Ranges, and what one step changes of them. Exact sums are held 2^32 above their value, so that the negative ones,
// those of 32 bits and those beyond lie in three blocks of 2^32.
ghost use Rattle.std.specs.Prelude.{◌≡◌, ◌%◌, ◌<◌};

use super::decode::{Ins, Op};
use super::layout::Layout;

const BLOCK: usize = 1 << 32;

#[derive(Clone, Copy, PartialEq, Eq)]
pub(crate) struct Span {
    pub(crate) lo: u32,
    pub(crate) hi: u32,
}

impl Span {
    pub(crate) const ANYTHING: Span = Span {
        lo: 0,
        hi: u32::MAX,
    };

    fn is_empty(self) -> bool {
        self.hi < self.lo
    }

    pub(crate) fn lies_in(self, other: Span) -> bool {
        other.lo <= self.lo && self.hi <= other.hi
    }

    // The smallest range that covers both.
    pub(crate) fn joined(self, other: Span) -> Span {
        Span {
            lo: self.lo.min(other.lo),
            hi: self.hi.max(other.hi),
        }
    }

    // What both have; beside `joined`, with the greatest for the least: a function that is told which would be longer.
    fn met(self, other: Span) -> Span {
        Span {
            lo: self.lo.max(other.lo),
            hi: self.hi.min(other.hi),
        }
    }
}

// The ranges of r0 to r7: what is known of them, or what a door claims.
#[derive(Clone, Copy, PartialEq, Eq)]
pub(crate) struct Known {
    pub(crate) spans: [Span; 8],
}

impl Known {
    pub(crate) const ANYTHING: Known = Known {
        spans: [Span::ANYTHING; 8],
    };

    pub(crate) const ZERO: Known = Known {
        spans: [Span { lo: 0, hi: 0 }; 8],
    };

    pub(crate) fn of(&self, r: u32) -> Span {
        self.spans[r as usize % 8]
    }

    pub(crate) fn with(mut self, r: u32, x: Span) -> Known {
        self.spans[r as usize % 8] = x;
        self
    }

    // Whether each lowest is at most its highest.
    pub(crate) fn is_ordered(&self) -> bool {
        self.spans.iter().all(|x| !x.is_empty())
    }

    pub(crate) fn lies_in(&self, claim: &Known) -> bool {
        self.spans
            .iter()
            .zip(claim.spans.iter())
            .all(|(x, y)| x.lies_in(*y))
    }
}

// The signed reading of imm, 2^32 above it.
pub(crate) fn raised(imm: u32) -> usize
    ensures { result < 8589934592 }
{
    if imm < 1 << 31 {
        imm as usize + BLOCK
    } else {
        imm as usize
    }
}

// The remainder is written out, since `as` must lose nothing.
fn low(x: usize) -> u32
    ensures { result ≡ x % 4294967296 }
{
    (x % BLOCK) as u32
}

fn rule_w(lo: usize, hi: usize) -> Span {
    if lo / BLOCK == hi / BLOCK {
        Span {
            lo: low(lo),
            hi: low(hi),
        }
    } else {
        Span::ANYTHING
    }
}

fn summed(x: Span, y: Span) -> Span {
    rule_w(
        BLOCK + x.lo as usize + y.lo as usize,
        BLOCK + x.hi as usize + y.hi as usize,
    )
}

fn moved(x: Span, imm: u32) -> Span {
    rule_w(x.lo as usize + raised(imm), x.hi as usize + raised(imm))
}

fn less(x: Span, y: Span) -> Span {
    rule_w(
        BLOCK + x.lo as usize - y.hi as usize,
        BLOCK + x.hi as usize - y.lo as usize,
    )
}

// An arithmetic shift.
pub(crate) fn sar(v: u32, w: u32) -> u32 {
    (v.cast_signed() >> (w % 32)).cast_unsigned()
}

fn shifted(x: Span, w: u32) -> Span {
    Span {
        lo: x.lo >> (w % 32),
        hi: x.hi >> (w % 32),
    }
}

fn signed_shifted(x: Span, w: u32) -> Span {
    if x.lo >> 31 == x.hi >> 31 {
        Span {
            lo: sar(x.lo, w),
            hi: sar(x.hi, w),
        }
    } else {
        Span::ANYTHING
    }
}

fn guarded(x: Span, l: Layout) -> Span {
    let region = Span {
        lo: l.base,
        hi: l.base.wrapping_add(l.size).wrapping_sub(1),
    };
    if x.lies_in(region) { x } else { region }
}

// After widths 129 and 130: "Their range afterwards is anything."
fn loaded(w: u32) -> Span {
    match w {
        1 => Span { lo: 0, hi: 255 },
        2 => Span { lo: 0, hi: 65535 },
        _ => Span::ANYTHING,
    }
}

// Rule N's cut as tickets 1 and 2 of document 02 have it, none where it would be empty: all bytes from exact b + imm on
// lie in the region. The ends are compared as sums with imm, so that none wraps.
fn reached(i: Ins, y: Span, l: Layout) -> Span {
    let imm = raised(i.imm);
    let count = i.bytes() as usize;
    let floor = BLOCK + l.base as usize;
    let end = floor + l.size as usize;
    let lowest = y.lo as usize + imm;
    let highest = y.hi as usize + imm + count;
    if highest < floor + count || end < lowest + count {
        return y;
    }
    Span {
        lo: if lowest < floor {
            low(floor - imm)
        } else {
            y.lo
        },
        hi: if end < highest {
            low(end - count - imm)
        } else {
            y.hi
        },
    }
}

impl Known {
    // Both cuts of rule B, x for a and y for b, or none if one would be empty. The ranges stay apart in this and the two below, as each
    // cut is made of others.
    fn cut(self, i: Ins, x: Span, y: Span) -> Known {
        if x.is_empty() || y.is_empty() {
            self
        } else {
            self.with(i.b, y).with(i.a, x)
        }
    }

    // Where a is below b.
    fn cut_below(self, i: Ins, x: Span, y: Span) -> Known {
        if y.hi == 0 || x.lo == u32::MAX {
            return self;
        }
        let hi = x.hi.min(y.hi - 1);
        let lo = y.lo.max(x.lo + 1);
        self.cut(i, Span { lo: x.lo, hi }, Span { lo, hi: y.hi })
    }

    // Where a is not below b.
    fn cut_above(self, i: Ins, x: Span, y: Span) -> Known {
        let lo = x.lo.max(y.lo);
        let hi = y.hi.min(x.hi);
        self.cut(i, Span { lo, hi: x.hi }, Span { lo: y.lo, hi })
    }

    // Along the edge that a jump or a branch makes. A jump names no two registers, so nothing is cut for it.
    pub(crate) fn taken(self, i: Ins) -> Known {
        let x = self.of(i.a);
        let y = self.of(i.b);
        match i.w {
            _ if i.a == i.b => self,
            0 => self.cut(i, x.met(y), x.met(y)),
            1 => self.cut_below(i, x, y),
            _ => self,
        }
    }

    fn untaken(self, i: Ins) -> Known {
        if i.a != i.b && i.w == 1 {
            self.cut_above(i, self.of(i.a), self.of(i.b))
        } else {
            self
        }
    }

    // Along the edge to the next index.
    pub(crate) fn after(self, i: Ins, l: Layout) -> Known {
        let x = self.of(i.a);
        let y = self.of(i.b);
        match i.op {
            Op::Halt | Op::Jump | Op::Check | Op::Jumpr => self,
            Op::Set => self.with(
                i.a,
                Span {
                    lo: i.imm,
                    hi: i.imm,
                },
            ),
            Op::Copy => self.with(i.a, y),
            Op::Add => self.with(i.a, summed(x, y)),
            Op::Addi => self.with(i.a, moved(x, i.imm)),
            Op::Sub => self.with(i.a, less(x, y)),
            Op::Andi => self.with(
                i.a,
                Span {
                    lo: 0,
                    hi: x.hi.min(i.imm),
                },
            ),
            Op::Guard => self.with(i.a, guarded(x, l)),
            Op::Shr => self.with(i.a, shifted(x, i.w)),
            Op::Sar => self.with(i.a, signed_shifted(x, i.w)),
            Op::Load => self.with(i.b, reached(i, y, l)).with(i.a, loaded(i.w)),
            Op::Store => self.with(i.b, reached(i, y, l)),
            Op::Branch => self.untaken(i),
        }
    }
}
