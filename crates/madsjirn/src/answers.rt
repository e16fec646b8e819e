// The answers that a host gets, as plain numbers with C's layout: C has no Result and no enum that holds something. In each, refusal is
// 0 for none, or else the refusal's number with its place, and what there is nothing to say of is 0.
ghost use Rattle.std.specs.Prelude.{◌≡◌};
ghost use Rattle.model.specs.Answers.{judgement_of, report_of};
ghost use Rattle.reader.specs.Readings.{holds, reading_of};
ghost use Rattle.writer.specs.Reports as Reports;
ghost use Rattle.madsjirn.specs.Numbers.{module_numbers, verdict_numbers, run_numbers, write_numbers};

use model::{Answer, Contents, Layout, Refusal, Steps, Verdict};
use reader::module::Module;

// Of a module that is read: its layout, and how many instructions and targets it has.
#[repr(C)]
#[derive(Clone, Copy, Default)]
pub struct ModuleAnswer {
    pub refusal: u32,
    pub place: u32,
    pub base: u32,
    pub size: u32,
    pub guard: u32,
    pub instructions: u32,
    pub targets: u32,
}

// Of a module that is verified: how many instructions and targets it has.
#[repr(C)]
#[derive(Clone, Copy, Default)]
pub struct VerdictAnswer {
    pub refusal: u32,
    pub place: u32,
    pub instructions: u32,
    pub targets: u32,
}

// Of a run: how it ended, 0 to 4 (halted, trapped, denied, violated, out of budget) or 5 where it was refused, and how many steps
// were made.
#[repr(C)]
#[derive(Clone, Copy, Default)]
pub struct RunAnswer {
    pub refusal: u32,
    pub place: u32,
    pub ending: u32,
    pub steps: Steps,
}

// Of tables that are written: how many bytes the file has.
#[repr(C)]
#[derive(Clone, Copy, Default)]
pub struct WriteAnswer {
    pub refusal: u32,
    pub place: u32,
    pub length: u32,
}

// The ending of a refused run.
const NOT_RUN: u32 = 5;

impl ModuleAnswer {
    // Of any layout and counts, whether or not a file has them.
    #[tactic(auto, unfolding(crate::specs::Numbers::module_numbers))]
    pub fn of(layout: Layout, held: Contents) -> ModuleAnswer
        ensures { result ≡ module_numbers (holds layout held.instructions held.targets) }
    {
        let Layout { base, size, guard } = layout;
        let Contents {
            instructions,
            targets,
        } = held;
        ModuleAnswer {
            refusal: 0,
            place: 0,
            base,
            size,
            guard,
            instructions,
            targets,
        }
    }
}

impl<'a> From<Result<Module<'a>, Refusal>> for ModuleAnswer {
    ghost from_gives = { λ read answer. answer ≡ module_numbers (reading_of read) };

    #[tactic(auto, unfolding(crate::specs::Numbers::module_numbers, reader::specs::Readings::reading_of, model::specs::Answers::fault_of))]
    fn from(read: Result<Module<'a>, Refusal>) -> ModuleAnswer {
        match read {
            Ok(module) => ModuleAnswer::of(module.layout, module.held),
            Err(Refusal { rule, place }) => ModuleAnswer {
                refusal: u32::from(rule),
                place,
                ..ModuleAnswer::default()
            },
        }
    }
}

impl From<Verdict> for VerdictAnswer {
    ghost from_gives = { λ verdict answer. answer ≡ verdict_numbers (judgement_of verdict) };

    #[tactic(auto, unfolding(crate::specs::Numbers::verdict_numbers, model::specs::Answers::judgement_of, model::specs::Answers::fault_of))]
    fn from(verdict: Verdict) -> VerdictAnswer {
        match verdict {
            Ok(
                Contents {
                    instructions,
                    targets,
                },
            ) => VerdictAnswer {
                refusal: 0,
                place: 0,
                instructions,
                targets,
            },
            Err(Refusal { rule, place }) => VerdictAnswer {
                refusal: u32::from(rule),
                place,
                ..VerdictAnswer::default()
            },
        }
    }
}

impl From<Answer> for RunAnswer {
    ghost from_gives = { λ answer numbers. numbers ≡ run_numbers (report_of answer) };

    #[tactic(auto, unfolding(crate::specs::Numbers::run_numbers, model::specs::Answers::report_of, model::specs::Answers::fault_of))]
    fn from(answer: Answer) -> RunAnswer {
        let Answer { completion, steps } = answer;
        match completion {
            Ok(ending) => RunAnswer {
                refusal: 0,
                place: 0,
                ending: u32::from(ending),
                steps,
            },
            Err(Refusal { rule, place }) => RunAnswer {
                refusal: u32::from(rule),
                place,
                ending: NOT_RUN,
                steps,
            },
        }
    }
}

impl From<Result<u32, Refusal>> for WriteAnswer {
    ghost from_gives = { λ written answer. answer ≡ write_numbers (Reports.report_of written) };

    #[tactic(auto, unfolding(crate::specs::Numbers::write_numbers, writer::specs::Reports::report_of, model::specs::Answers::fault_of))]
    fn from(written: Result<u32, Refusal>) -> WriteAnswer {
        match written {
            Ok(length) => WriteAnswer {
                refusal: 0,
                place: 0,
                length,
            },
            Err(Refusal { rule, place }) => WriteAnswer {
                refusal: u32::from(rule),
                place,
                length: 0,
            },
        }
    }
}
