// The instructions of a generated module. What came before decides what follows, so that ranges are made and then used:
// r7 is kept in the region and r6 at most half the guard, and accesses go through r7 or through sums with it.
use super::build::{HALT, Ins, Kind, Op, binary, bytes, immediate, shift, unary};
use super::plan::{Maker, Miss};

const POINTER: u32 = 7;

const SMALL: u32 = 6;

const WIDTHS: [u32; 4] = [1, 2, 2, 4];

impl Maker {
    fn half_guard(&self) -> u32 {
        self.plan.layout.guard / 2
    }

    // A value that matters to some rule, or any.
    fn value(&mut self) -> u32 {
        let layout = self.plan.layout;
        match self.random.below(8) {
            0 | 1 => self.some_door(),
            2 => layout.base.wrapping_add(self.random.below(layout.size)),
            3 => self.random.below(16),
            4 => self.random.below(16).wrapping_neg(),
            5 => 2147483650 - self.random.below(4),
            6 => self.half_guard(),
            _ => self.random.next(),
        }
    }

    // A displacement at or inside the guard's edges, for `count` bytes at a register that may lie `spent` bytes above
    // the region.
    fn displacement(&mut self, count: u32, spent: u32) -> u32 {
        let guard = self.plan.layout.guard;
        let past = u32::from(self.plan.misses(Miss::TooFar));
        let top = guard
            .wrapping_add(1)
            .wrapping_sub(count.wrapping_add(spent));
        match self.random.below(8) {
            0 | 1 => top.wrapping_add(past),
            2 | 3 => guard.wrapping_add(past).wrapping_neg(),
            4 => top.wrapping_sub(self.random.below(guard)),
            _ => 0,
        }
    }

    // Three in four loads of 1 and 2 bytes carry the sign.
    fn width(&mut self, op: Op) -> u32 {
        let w = if self.plan.layout.guard < 3 {
            1
        } else {
            self.random.pick_or_default(&WIDTHS)
        };
        if op == Op::Load && w < 4 && !self.random.one_in(4) {
            w.wrapping_add(128)
        } else {
            w
        }
    }

    // Where half the guard is above a byte, r6 is loaded too: its claim bears a byte, but not one that carries the sign.
    fn access(&mut self, b: u32, spent: u32) -> Ins {
        let op = self.random.pick_or_default(&[Op::Load, Op::Store]);
        let w = self.width(op);
        let a = if 511 < self.plan.layout.guard && self.random.one_in(2) {
            SMALL
        } else {
            self.random.below(6)
        };
        let imm = self.displacement(bytes(w), spent);
        Ins { op, a, b, w, imm }
    }

    fn target(&mut self) -> u32 {
        if self.plan.misses(Miss::NoDoor) || self.plan.misses(Miss::Any) {
            if self.random.one_in(2) {
                return self.some_index();
            }
        }
        self.some_door()
    }

    fn branch(&mut self, a: u32) -> Ins {
        Ins {
            op: Op::Branch,
            a,
            b: self.random.below(8),
            w: self.random.below(3),
            imm: self.target(),
        }
    }

    fn ender(&mut self) -> Ins {
        if self.random.one_in(3) {
            return HALT;
        }
        if self.plan.misses(Miss::Unchecked) {
            return unary(Op::Jumpr, self.random.below(6));
        }
        immediate(Op::Jump, 0, self.target())
    }

    // An instruction that builds on none.
    fn fresh(&mut self) -> Ins {
        let a = self
            .random
            .below(if self.plan.misses(Miss::Any) { 8 } else { 6 });
        let b = self.random.below(8);
        match self.random.below(18) {
            0 | 1 => immediate(Op::Set, a, self.value()),
            2 | 3 => binary(Op::Copy, a, POINTER),
            4 => binary(Op::Add, a, b),
            5 => immediate(Op::Addi, a, self.value()),
            6 => binary(Op::Sub, a, b),
            7 => immediate(Op::Andi, a, self.half_guard()),
            8 => unary(Op::Guard, a),
            9 => shift(Op::Shr, a, self.random.below(32)),
            10 => shift(Op::Sar, a, self.random.below(32)),
            11..=15 => self.access(POINTER, self.plan.slack),
            _ => self.branch(a),
        }
    }

    // From a small number in a: a smaller one, or a pointer.
    fn from_small(&mut self, a: u32) -> Ins {
        match self.random.below(4) {
            0 => shift(Op::Shr, a, self.random.below(3)),
            1 => shift(Op::Sar, a, self.random.below(3)),
            _ => binary(Op::Add, a, POINTER),
        }
    }

    // From a pointer in a: one that is moved a little.
    fn from_pointer(&mut self, a: u32) -> Ins {
        match self.random.below(4) {
            0 => immediate(Op::Addi, a, self.half_guard()),
            1 => immediate(Op::Addi, a, self.half_guard().wrapping_neg()),
            2 => binary(Op::Sub, a, SMALL),
            _ => binary(Op::Add, a, SMALL),
        }
    }

    // From an access through r7: r7 is moved to its first byte, or as far above its last one as r7's claim goes above
    // the region, so that what rule N leaves of r7 just fits the claim; or one further, and it does not.
    fn from_access(&mut self, before: Ins) -> Ins {
        if before.b != POINTER || self.random.one_in(4) {
            return self.fresh();
        }
        let first = before.imm;
        let past = first
            .wrapping_add(bytes(before.w))
            .wrapping_add(self.plan.slack);
        let by = match self.random.below(6) {
            0 | 1 => first,
            2 => first.wrapping_sub(1),
            3 | 4 => past.wrapping_sub(1),
            _ => past,
        };
        immediate(Op::Addi, POINTER, by)
    }

    fn follow(&mut self, before: Ins) -> Ins {
        let a = before.a;
        if 5 < a {
            return self.fresh();
        }
        match before.op {
            Op::Set => self.branch(a),
            Op::Copy => self.from_pointer(a),
            Op::Add | Op::Addi | Op::Sub => self.access(a, self.half_guard()),
            Op::Andi | Op::Shr | Op::Sar => self.from_small(a),
            Op::Guard => self.access(a, 0),
            Op::Load | Op::Store => self.from_access(before),
            _ => self.fresh(),
        }
    }

    // Whether the instruction at i may be one after which the next index needs a door.
    fn may_end(&self, i: u32) -> bool {
        let next = i.wrapping_add(1);
        next == self.plan.n || self.plan.kind_at(next).is_some()
    }

    // Whether a check at i may be followed by its jump.
    fn may_check(&self, i: u32) -> bool {
        let next = i.wrapping_add(1);
        next < self.plan.n
            && self.may_end(next)
            && (self.plan.kind_at(next).is_none() || self.plan.misses(Miss::Between))
    }

    // The register that was set just before is the one to check, since it may hold a door's index.
    fn check(&mut self, before: Ins) -> Ins {
        if before.op == Op::Set {
            unary(Op::Check, before.a)
        } else {
            unary(Op::Check, self.random.below(6))
        }
    }

    // Inside a stretch of code, neither at its start nor at the module's end.
    fn inner(&mut self, i: u32, before: Ins) -> Ins {
        if self.may_end(i) || self.plan.misses(Miss::NoWayIn) {
            if self.random.one_in(2) {
                return self.ender();
            }
        }
        if self.may_check(i) && self.random.one_in(2) {
            return self.check(before);
        }
        if self.random.one_in(4) {
            return self.fresh();
        }
        self.follow(before)
    }

    // The start of a stretch brings r7 into the region, and r6 below half the guard.
    fn needs_pointer(&self, kind: Option<Kind>) -> bool {
        match kind {
            Some(Kind::Open) => true,
            Some(Kind::Inner) => !self.plan.tight,
            None => false,
        }
    }

    fn unruly(&mut self) -> Ins {
        match self.random.below(8) {
            0 => self.ender(),
            1 => unary(Op::Check, self.random.below(8)),
            2 => unary(Op::Jumpr, self.random.below(8)),
            _ => self.fresh(),
        }
    }

    fn small_most(&self) -> u32 {
        if self.plan.misses(Miss::Narrow) {
            self.half_guard().wrapping_add(1)
        } else {
            self.half_guard()
        }
    }

    // The instruction at i, after the one before it.
    pub(crate) fn choose(&mut self, i: u32, before: Ins) -> Ins {
        if self.plan.misses(Miss::Any) {
            return self.unruly();
        }
        let kind = self.plan.kind_at(i);
        let between = kind.is_none();
        if before.op == Op::Check
            && self.may_end(i)
            && (between || self.plan.misses(Miss::Between))
        {
            return unary(Op::Jumpr, before.a);
        }
        if i.wrapping_add(1) == self.plan.n && !self.plan.misses(Miss::RunsOff) {
            return self.ender();
        }
        if self.needs_pointer(kind) {
            return unary(Op::Guard, POINTER);
        }
        if between && before.op == Op::Guard && before.a == POINTER {
            return immediate(Op::Andi, SMALL, self.small_most());
        }
        self.inner(i, if between { before } else { HALT })
    }
}
