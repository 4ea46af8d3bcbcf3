// Why the whole of a text is refused, in plain words. The number that is printed in place of answers is the library's own.
use journal::TrimRefusal;
use mend::MendRefusal;
use script::RunRefusal;
use script::racks::RackRunRefusal;
use thiserror::Error;

// What is said of a text that is too long to be run.
pub(super) const TOO_LONG: &str = "the text is longer than 4,096 bytes, and was not run";

#[derive(Clone, Copy, Debug, Error)]
pub(super) enum Refused {
    #[error("a line is no frame, and nothing was trimmed")]
    NoFrame,
    #[error("{}", TOO_LONG)]
    TooLong,
    #[error("the text or its clean form is longer than 4,096 bytes, and was not mended")]
    TooLongToMend,
    #[error("there is no room for the answers")]
    NoRoom,
    #[error("there is no room for the clean script")]
    NoRoomToMend,
    #[error("there is no such edition")]
    NoEdition,
    #[error("the first line is no rack, and no further line was answered")]
    NoRack,
}

impl From<RunRefusal> for Refused {
    fn from(refusal: RunRefusal) -> Self {
        match refusal {
            RunRefusal::TooLong => Refused::TooLong,
            RunRefusal::NoRoom => Refused::NoRoom,
        }
    }
}

impl From<RackRunRefusal> for Refused {
    fn from(refusal: RackRunRefusal) -> Self {
        match refusal {
            RackRunRefusal::BadRack(_) => Refused::NoRack,
            RackRunRefusal::Run(refusal) => refusal.into(),
        }
    }
}

impl From<TrimRefusal> for Refused {
    fn from(refusal: TrimRefusal) -> Self {
        match refusal {
            TrimRefusal::NoFrame => Refused::NoFrame,
            TrimRefusal::TooLong => Refused::TooLong,
            TrimRefusal::NoEdition => Refused::NoEdition,
        }
    }
}

impl From<MendRefusal> for Refused {
    fn from(refusal: MendRefusal) -> Self {
        match refusal {
            MendRefusal::TooLong => Refused::TooLongToMend,
            MendRefusal::NoRoom => Refused::NoRoomToMend,
        }
    }
}
