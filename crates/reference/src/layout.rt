// Where a module's region lies.
#[derive(Clone, Copy, PartialEq, Eq)]
pub struct Layout {
    pub base: u32,
    pub size: u32,
    pub guard: u32,
}

impl Layout {
    // The rule of refusal 5.
    pub(crate) fn is_sound(self) -> bool {
        let end = u64::from(self.base) + u64::from(self.size) + u64::from(self.guard);
        256 <= self.size
            && self.size <= 65536
            && self.size.is_power_of_two()
            && self.guard <= 4096
            && self.guard <= self.base
            && self.base % self.size == 0
            && end <= 1 << 32
    }
}
