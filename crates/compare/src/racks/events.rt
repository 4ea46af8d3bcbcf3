// An event of a rack by its numbers.

// A kind, which may be none, and three operands, of which the kind may lack some.
#[derive(Clone, Copy)]
pub(super) struct Event {
    pub(super) kind: u8,
    pub(super) first: u16,
    pub(super) second: u8,
    pub(super) third: u8,
}

// The lowest five bytes of a number.
impl From<u64> for Event {
    fn from(number: u64) -> Self {
        let [_, _, _, kind, high, low, second, third] = number.to_be_bytes();
        Event {
            kind,
            first: u16::from_be_bytes([high, low]),
            second,
            third,
        }
    }
}

// The same as one number, as it is printed.
impl From<Event> for u64 {
    fn from(event: Event) -> Self {
        let [high, low] = event.first.to_be_bytes();
        u64::from_be_bytes([0, 0, 0, event.kind, high, low, event.second, event.third])
    }
}
