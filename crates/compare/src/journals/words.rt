// The words of a journal, as they are drawn: the frames of exchanges, in their order, and between them what an idle machine logs besides;
// and words that are no frames. They are put together byte by byte, since `Logged` of journal, which packs them, is among what is compared.
use super::super::events::Event;
use super::super::random::byte;
use super::super::{draws, random};
use bus::kinds::Kind;
use chip::{Levels, PORT_A, PORT_B, PORT_C};

const LEVELS: u8 = Kind::OutsideLevels as u8;

// The frame that puts levels on a port which are there already.
pub(super) fn repeated(levels: &Levels, port: u8) -> u32 {
    u32::from_be_bytes(match port {
        PORT_A => [0, LEVELS, PORT_A, levels.a],
        PORT_B => [0, LEVELS, PORT_B, levels.b],
        _ => [0, LEVELS, PORT_C, levels.c],
    })
}

// The levels after a frame.
pub(super) fn follow(levels: &mut Levels, word: u32) {
    match word.to_be_bytes() {
        [0, LEVELS, PORT_A, byte] => levels.a = byte,
        [0, LEVELS, PORT_B, byte] => levels.b = byte,
        [0, LEVELS, PORT_C, byte] => levels.c = byte,
        _ => {}
    }
}

// An event as a frame: without the operands that its kind lacks. What is no kind is made an end, which often has nothing to end.
fn framed(event: Event) -> u32 {
    let kind = Kind::numbered(u16::from(event.kind)).unwrap_or(Kind::EndCycle);
    let (first, second) = match kind {
        Kind::Reset | Kind::EndCycle => (0, 0),
        Kind::BeginRead => (event.first, 0),
        Kind::BeginWrite | Kind::OutsideLevels => (event.first, event.second),
    };
    u32::from_be_bytes([0, kind.number(), first, second])
}

// The kinds that have an operand.
const WITH_OPERANDS: [Kind; 3] = [Kind::BeginRead, Kind::BeginWrite, Kind::OutsideLevels];

// What an idle machine logs besides: most often the last word once more, be it a beginning, an end, levels or a reset; levels that are there
// already; or an address or a port that there is not.
fn idle(last: u32, levels: &Levels, number: u64) -> u32 {
    let one_of_three = (number >> 32) % 3;
    match (number >> 24) % 4 {
        0 | 1 => last,
        2 => repeated(levels, one_of_three as u8),
        _ => framed(Event {
            kind: WITH_OPERANDS[one_of_three as usize].number(),
            first: (4 + number % 0xfc) as u8,
            second: 0,
        }),
    }
}

// How many of 256 words are drawn so.
const IDLE: u8 = 64;

// Where the drawing stands: the last number, the exchange that goes on and its step, the last word, and the levels.
#[derive(Clone, Copy)]
pub(super) struct Drawing {
    pub(super) number: u64,
    exchange: u8,
    step: u64,
    word: u32,
    levels: Levels,
}

impl Drawing {
    pub(super) fn new(seed: u64, levels: Levels) -> Self {
        Drawing {
            number: seed,
            exchange: 0,
            step: 0,
            word: 0,
            levels,
        }
    }

    // The next word. One that is drawn between those of an exchange puts none of them out of its place.
    pub(super) fn next(&mut self) -> u32 {
        let number = random::next(self.number);
        self.number = number;
        if byte(number >> 48) < IDLE {
            self.word = idle(self.word, &self.levels, number);
        } else {
            if draws::begins(self.step) {
                self.exchange = draws::new_exchange(number);
            }
            self.word = framed(draws::draw(number, self.exchange, self.step));
            self.step = self.step.wrapping_add(1);
        }
        follow(&mut self.levels, self.word);
        self.word
    }
}

// In how many ways a word is made no frame.
pub(super) const WAYS: u8 = 8;

// A word that is none: of kind 04; of kind 06; of a kind above that; of kind 0105; a frame with upper bits; the beginning of a read with a second
// operand; a reset or an end with that; and one with a first operand. Kinds are numbers here, since half of these are none.
pub(super) fn damaged(word: u32, way: u8, number: u64) -> u32 {
    let [_, kind, first, second] = word.to_be_bytes();
    let more = (1 + (number >> 16) % 0xf9) as u8;
    let reset_or_end = (number % 2 * 2) as u8;
    u32::from_be_bytes(match way {
        0 => [0, 4, first, second],
        1 => [0, 6, first, second],
        2 => [0, 6 + more, first, second],
        3 => [1, LEVELS, first, second],
        4 => [more, kind, first, second],
        5 => [0, Kind::BeginRead as u8, first, more],
        6 => [0, reset_or_end, 0, more],
        _ => [0, reset_or_end, more, 0],
    })
}
