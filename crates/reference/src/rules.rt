// The verifier's demands at each index, in the order 12, 9, 10, 8, 13, 11.
ghost use Rattle.std.specs.Prelude.{IfErr};
ghost use Rattle.reference.specs.Parts.{Demand, DemandAt};

use super::answer::{Refusal, Rule};
use super::decode::{Ins, Op};
use super::know::{Known, raised};
use super::layout::Layout;
use super::load::{Module, next};

fn is_wild(x: Ins, known: &Known, l: Layout) -> bool {
    if !x.accesses() {
        return false;
    }
    let b = known.of(x.b);
    let guard = l.guard as usize;
    let floor = (1 << 32) + l.base as usize;
    let lowest = b.lo as usize + raised(x.imm);
    let highest = b.hi as usize + raised(x.imm) + x.bytes() as usize;
    lowest + guard < floor || floor + l.size as usize + guard < highest
}

impl Module {
    fn has_no_way_in(&self, i: usize) -> bool {
        0 < i && self.at(i - 1).ends() && !self.is_door(i)
    }

    fn is_unchecked(&self, i: usize) -> bool {
        let x = self.at(i);
        if x.op != Op::Jumpr {
            return false;
        }
        if i == 0 || self.is_door(i) {
            return true;
        }
        let before = self.at(i - 1);
        before.op != Op::Check || before.a != x.a
    }

    fn names_no_door(&self, x: Ins) -> bool {
        x.jumps() && !self.is_door(x.imm as usize)
    }

    // Whether an edge keeps the claim at its end; where that is no door there is none.
    fn keeps(&self, to: usize, known: &Known) -> bool {
        match self.door(to) {
            Some(mark) => known.lies_in(&self.claims[usize::from(mark.number)]),
            None => true,
        }
    }

    fn breaks_claim(&self, i: usize, known: Known) -> bool {
        let x = self.at(i);
        if x.jumps() && !self.keeps(x.imm as usize, &known.taken(x)) {
            return true;
        }
        !x.ends() && !self.keeps(next(i), &known.after(x, self.shape.layout))
    }

    // The first demand that fails at an index.
    fn demand(&self, i: usize, known: &Known) -> Result<(), Rule>
        ensures { IfErr result (λ rule. Demand rule) }
    {
        let x = self.at(i);
        if self.has_no_way_in(i) {
            return Err(Rule::NoWayIn);
        }
        if self.is_unchecked(i) {
            return Err(Rule::UncheckedJump);
        }
        if is_wild(x, known, self.shape.layout) {
            return Err(Rule::WildAccess);
        }
        if self.names_no_door(x) {
            return Err(Rule::NoDoor);
        }
        if next(i) == self.shape.n && !x.ends() {
            return Err(Rule::RunsOff);
        }
        if self.breaks_claim(i, *known) {
            return Err(Rule::BrokenClaim);
        }
        Ok(())
    }

    pub(crate) fn judge(&self) -> Result<(), Refusal>
        ensures { IfErr result (λ e. DemandAt self.now.shape.n e) }
    {
        let mut known = Known::ANYTHING;
        for i in 0..self.shape.n {
            if let Some(mark) = self.door(i) {
                known = self.claims[usize::from(mark.number)];
            }
            self.demand(i, &known).map_err(|rule| Refusal::at(rule, i))?;
            known = known.after(self.at(i), self.shape.layout);
        }
        Ok(())
    }
}
