// What a generated module is to be: its layout, its doors, and which rule it comes close to breaking.
use super::build::{Kind, Layout};
use random::Random;
use std::array;

// The rules that a module may come close to breaking; with Any its code is random.
#[derive(Clone, Copy, PartialEq, Eq, Default)]
pub enum Miss {
    TooFar,
    Between,
    NoDoor,
    RunsOff,
    NoWayIn,
    Narrow,
    Unchecked,
    #[default]
    Any,
}

// The tables below are no columns of one: each is picked from by itself.
const MISSES: [Miss; 8] = [
    Miss::TooFar,
    Miss::Between,
    Miss::NoDoor,
    Miss::RunsOff,
    Miss::NoWayIn,
    Miss::Narrow,
    Miss::Unchecked,
    Miss::Any,
];

// Each of these bases has room for the largest guard on both sides: at the bottom, around 2^31 and at the top too.
const BASES: [u32; 8] = [
    536870912,
    536870912,
    4096,
    2147483392,
    2147483648,
    4294963200 - 256,
    4294959104,
    65536,
];

const GUARDS: [u32; 8] = [0, 3, 4, 7, 16, 250, 256, 4096];

const GAPS: [u8; 8] = [1, 2, 2, 3, 3, 3, 4, 4];

#[derive(Clone, Copy)]
pub struct Door {
    pub index: u32,
    pub kind: Kind,
}

// In fixed memory: the doors' indexes rise; those from k on are drawn, but not written. Where `tight`, an inner door claims the region and `slack`
// bytes above it for r7, and 0 to half the guard for r6; else it claims anything.
#[derive(Clone, Copy)]
pub struct Plan {
    pub layout: Layout,
    pub n: u32,
    pub k: u32,
    pub doors: [Door; 4],
    pub tight: bool,
    pub slack: u32,
    pub miss: Option<Miss>,
}

fn draw_layout(random: &mut Random) -> Layout {
    Layout {
        base: random.pick_or_default(&BASES),
        size: 256,
        guard: random.pick_or_default(&GUARDS),
    }
}

fn draw_miss(random: &mut Random) -> Option<Miss> {
    if random.one_in(3) {
        Some(random.pick_or_default(&MISSES))
    } else {
        None
    }
}

fn draw_doors(indexes: [u32; 4], random: &mut Random) -> [Door; 4] {
    let open = random.next() & random.next() | 1;
    array::from_fn(|j| Door {
        index: indexes[j],
        kind: if (open >> j) % 2 == 1 {
            Kind::Open
        } else {
            Kind::Inner
        },
    })
}

impl Plan {
    fn draw(random: &mut Random) -> Plan {
        let second = u32::from(random.pick_or_default(&GAPS));
        let third = second + u32::from(random.pick_or_default(&GAPS));
        let fourth = third + u32::from(random.pick_or_default(&GAPS));
        let (k, last) = random.pick_or_default(&[(1, 0), (2, second), (3, third), (4, fourth)]);
        let n = last % 64 + 1 + random.below(4);
        Plan {
            layout: draw_layout(random),
            n,
            k,
            doors: draw_doors([0, second, third, fourth], random),
            tight: !random.one_in(4),
            slack: if random.one_in(4) { 4 } else { 0 },
            miss: draw_miss(random),
        }
    }

    // What door stands at an index.
    pub(crate) fn kind_at(&self, i: u32) -> Option<Kind> {
        let mut written = (0..self.k).zip(self.doors);
        let (_, door) = written.find(|(_, door)| door.index == i)?;
        Some(door.kind)
    }

    // Whether it comes close to breaking this rule.
    pub(crate) fn misses(&self, rule: Miss) -> bool {
        self.miss == Some(rule)
    }
}

// Makes what is generated: the module of a plan, and what is done to it.
#[derive(Clone, Copy)]
pub struct Maker {
    pub plan: Plan,
    pub random: Random,
}

impl Maker {
    // With a plan that is drawn too.
    pub(crate) fn new(mut random: Random) -> Maker {
        let plan = Plan::draw(&mut random);
        Maker { plan, random }
    }

    // The index of a door.
    pub(crate) fn some_door(&mut self) -> u32 {
        let j = self.random.below(self.plan.k) as usize;
        self.plan.doors[j % 4].index
    }

    // An index, or one of the first two beyond them.
    pub(crate) fn some_index(&mut self) -> u32 {
        self.random.below(self.plan.n.wrapping_add(2))
    }
}
