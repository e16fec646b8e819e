// Tables of rows: instructions are op, a, b, w and imm; doors are index, kind, and lowest and highest of r0 to r7 in
// turn.
use super::answer::Answer;
use model::Layout;

pub const MOST: u32 = u32::MAX;

// An inner door at index 0 that claims anything.
pub const DOOR: [u32; 18] = [
    0, 0, 0, MOST, 0, MOST, 0, MOST, 0, MOST, 0, MOST, 0, MOST, 0, MOST, 0, MOST,
];

// Tables as they are handed over.
#[derive(Clone, Copy)]
pub struct Tables<'a> {
    pub layout: Layout,
    pub code: &'a [[u32; 5]],
    pub doors: &'a [[u32; 18]],
}

impl Tables<'_> {
    pub(crate) fn by_ours(&self, buffer: &mut [u8]) -> Answer {
        Ok(writer::write::write(self.layout, self.code, self.doors, buffer)?)
    }

    pub(crate) fn by_theirs(&self, buffer: &mut [u8]) -> Answer {
        let Layout { base, size, guard } = self.layout;
        let layout = reference::Layout { base, size, guard };
        Ok(reference::write(layout, self.code, self.doors, buffer)?)
    }
}

// Space for tables of N instructions and K doors.
#[derive(Drop)]
pub struct Space<const N: usize, const K: usize> {
    pub layout: Layout,
    pub code: [[u32; 5]; N],
    pub doors: [[u32; 18]; K],
}

impl<const N: usize, const K: usize> Space<N, K> {
    // So many of the instructions and doors, the first.
    pub(crate) fn first(&self, n: usize, k: usize) -> Tables<'_> {
        Tables {
            layout: self.layout,
            code: first(&self.code, n),
            doors: first(&self.doors, k),
        }
    }
}

// The first of some items; all where they are fewer.
pub(crate) fn first<T>(items: &[T], n: usize) -> &[T] {
    &items[..n.min(items.len())]
}
