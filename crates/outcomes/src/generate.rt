// A whole module file from a plan.
use super::build::{File, HALT, Kind};
use super::plan::Maker;

impl Maker {
    fn put_instructions(&mut self, file: &mut File) {
        let mut before = HALT;
        for i in 0..self.plan.n {
            before = self.choose(i, before);
            file.put_instruction(i, before);
        }
    }

    // What an inner door claims of r6 and r7 where the plan is tight.
    fn put_tight_claims(&self, file: &mut File, j: u32) {
        let layout = self.plan.layout;
        let last = layout.base.wrapping_add(layout.size.wrapping_sub(1));
        file.put_claim(j, 6, (0, layout.guard / 2));
        file.put_claim(j, 7, (layout.base, last.wrapping_add(self.plan.slack)));
    }

    fn put_doors(&self, file: &mut File) {
        for (j, door) in (0..self.plan.k).zip(self.plan.doors) {
            file.put_door(j, door.index, door.kind);
            if self.plan.tight && door.kind == Kind::Inner {
                self.put_tight_claims(file, j);
            }
        }
    }

    pub(crate) fn file(&mut self) -> File {
        let mut file = File::new(self.plan.layout, self.plan.n, self.plan.k);
        self.put_instructions(&mut file);
        self.put_doors(&mut file);
        file
    }
}
