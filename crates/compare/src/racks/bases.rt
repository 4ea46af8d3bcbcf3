// Lists of bases: good ones, and any, of which some make no rack.
use super::super::random;

// How many bases a list has, and room for two more than a rack takes. An array with a count, since a state that no building leads to may
// have any count, also one that is above the room.
#[derive(Clone, Copy)]
pub(super) struct Bases {
    pub(super) count: u8,
    pub(super) list: [u16; 10],
}

// A rack takes so many; a list may have more.
const MOST_CARDS: u64 = 8;

const ROOM: u64 = 10;

// Each card is so wide, and there is room for so many side by side, below the address at which none begins.
const WIDTH: u64 = 8;

const SLOTS: u64 = 256;

const TOO_HIGH: u64 = 0x800;

// From a card to the next it is one slot, or this many: an odd number, so that no two of ten cards share a slot.
const STRIDE: u64 = 37;

// How many slots a card stands behind the first.
fn behind(seed: u64, at: u64) -> u64 {
    if seed % 2 == 0 {
        return at % ROOM;
    }
    at % ROOM * STRIDE
}

// The base that stands there in a list with that seed.
fn good(seed: u64, at: u64) -> u16 {
    (((seed >> 16) % SLOTS + behind(seed, at) % SLOTS) % SLOTS * WIDTH) as u16
}

// A large number, so that its multiples for two places differ in high bits too.
const SPREAD: u64 = 0x123456789;

// A number of its own for each place of a list with that seed.
fn drawn(seed: u64, at: u64) -> u64 {
    random::next(random::far(seed) ^ (at % ROOM * SPREAD))
}

// The good base there, or in one of nine something else, which may be no base: a card that begins within a slot; one that is too high; anything; the
// base of another card.
fn any(seed: u64, at: u64) -> u16 {
    let number = drawn(seed, at);
    let base = good(seed, at) as u64;
    let chosen = match number % 36 {
        0 => base + 1 + (number >> 8) % 7,
        1 => base + (1 + (number >> 8) % 31) * TOO_HIGH,
        2 => number >> 48,
        3 => good(seed, number >> 8) as u64,
        _ => base,
    };
    random::word(chosen)
}

// A base in a state that no building leads to: in one of two so near to the first that both cards answer at some addresses; else anything.
fn wild(seed: u64, at: u64) -> u16 {
    let number = drawn(seed, at);
    if number % 2 == 0 {
        return random::word(good(seed, 0) as u64 + (number >> 8) % 24);
    }
    (number >> 48) as u16
}

// A list of what one of these makes of a seed at each place.
fn list<F: Fn(u64, u64) -> u16>(base: F, seed: u64) -> [u16; 10]
    requires { F.IsAlwaysCallable base }
{
    std::array::from_fn(|at| base(seed, at as u64))
}

// A list that makes a rack: in one of two a full one, else of any number of cards.
pub(super) fn good_list(seed: u64) -> Bases {
    let any = ((seed >> 40) % (MOST_CARDS + 1)) as u8;
    Bases {
        count: if (seed >> 32) % 2 == 0 {
            MOST_CARDS as u8
        } else {
            any
        },
        list: list(good, seed),
    }
}

// A list that may make none, of up to ten bases.
pub(super) fn any_list(seed: u64) -> Bases {
    Bases {
        count: ((seed >> 40) % (ROOM + 1)) as u8,
        list: list(any, seed),
    }
}

// What may stand in a state that no building leads to: bases of any kind, and in one of two a count that is too high.
pub(super) fn wild_list(seed: u64) -> Bases {
    let any = random::byte(seed >> 40);
    let count = if seed % 4 < 2 { any % 9 } else { any };
    Bases {
        count,
        list: list(wild, seed),
    }
}

// The bases at the eight places of a rack.
pub(super) fn in_places(bases: Bases) -> [u16; 8] {
    std::array::from_fn(|place| bases.list[place])
}
