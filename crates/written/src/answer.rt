// What either writer answers: the file's length, or the refusal's number and place as the documents have them.
#[derive(Clone, Copy, PartialEq, Eq)]
pub struct Fault {
    pub number: u32,
    pub place: u32,
}

pub type Answer = Result<u32, Fault>;

pub(crate) fn refused(number: u32, place: u32) -> Answer {
    Err(Fault { number, place })
}

// One for each writer, whose types have nothing in common.
impl From<model::Refusal> for Fault {
    fn from(refusal: model::Refusal) -> Fault {
        Fault {
            number: u32::from(refusal.rule),
            place: refusal.place,
        }
    }
}

impl From<reference::Refusal> for Fault {
    fn from(refusal: reference::Refusal) -> Fault {
        Fault {
            number: u32::from(refusal.rule),
            place: refusal.place,
        }
    }
}
