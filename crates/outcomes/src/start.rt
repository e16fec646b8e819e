// The host's part of a run of a generated module.
use super::answer::Start;
use super::plan::Maker;
use std::array;

impl Maker {
    fn near(&mut self, address: u32) -> u32 {
        address.wrapping_sub(4).wrapping_add(self.random.below(8))
    }

    // A register's first value: mostly a pointer into the region, to one of its edges or to one of the guard's, or a
    // door.
    fn first_value(&mut self) -> u32 {
        let layout = self.plan.layout;
        let end = layout.base.wrapping_add(layout.size);
        match self.random.below(8) {
            0 | 1 => layout.base.wrapping_add(self.random.below(layout.size)),
            2 => self.near(layout.base.wrapping_sub(layout.guard)),
            3 => self.near(end.wrapping_add(layout.guard)),
            4 => self.near(end),
            5 => self.some_door(),
            6 => self.random.below(300),
            _ => self.random.next(),
        }
    }

    // Mostly one at which the region fits into 700 bytes; sometimes past their end, or so large that sums with it wrap.
    fn first_offset(&mut self) -> usize {
        match self.random.below(16) {
            0 => usize::MAX - self.random.below(700) as usize,
            1 => self.random.below(1000) as usize,
            2 => 444,
            3 => 445,
            _ => self.random.below(445) as usize,
        }
    }

    fn first_place(&mut self) -> u16 {
        let place = if self.random.one_in(4) {
            self.some_index()
        } else {
            self.some_door()
        };
        (place & 0xffff) as u16
    }

    pub(crate) fn start(&mut self) -> Start {
        Start {
            registers: array::from_fn(|_| self.first_value()),
            place: self.first_place(),
            offset: self.first_offset(),
            budget: u64::from(self.random.below(201)),
        }
    }
}
