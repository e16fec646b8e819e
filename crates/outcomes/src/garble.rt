// Claims of inner doors written over, many of them with the lowest above the highest. Where claims are worked out, none
// of it is of any account.
use super::build::{File, Kind, MOST};
use super::plan::Maker;

impl Maker {
    fn garble_claim(&mut self, file: &mut File, j: u32, kind: Kind, r: u32) {
        let lowest = self.random.next();
        let highest = self.random.next();
        if self.plan.k <= j || kind == Kind::Open {
            return;
        }
        let claimed = match self.random.below(4) {
            0 => (MOST, 0),
            1 => (lowest, highest),
            2 => (5, 4),
            _ => (0, 0),
        };
        file.put_claim(j, r, claimed);
    }

    // With numbers of its own, so that those of later modules are what they were.
    pub(crate) fn garble(mut self, file: &mut File) {
        for (j, door) in (0..).zip(self.plan.doors) {
            for r in 0..8 {
                self.garble_claim(file, j, door.kind, r);
            }
        }
    }
}
