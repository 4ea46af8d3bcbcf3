// An event of a device by its numbers.
use bus::kinds::Kind;

// A kind, which may be none, and two operands, of which the kind may lack one or both.
#[derive(Clone, Copy)]
pub(super) struct Event {
    pub(super) kind: u8,
    pub(super) first: u8,
    pub(super) second: u8,
}

pub(super) const RESET: Event = Event {
    kind: Kind::Reset as u8,
    first: 0,
    second: 0,
};

// The lowest three bytes of a number.
impl From<u64> for Event {
    fn from(number: u64) -> Self {
        let [_, _, _, _, _, kind, first, second] = number.to_be_bytes();
        Event {
            kind,
            first,
            second,
        }
    }
}

// The same as one number, as it is printed.
impl From<Event> for u64 {
    fn from(event: Event) -> Self {
        u64::from_be_bytes([0, 0, 0, 0, 0, event.kind, event.first, event.second])
    }
}
