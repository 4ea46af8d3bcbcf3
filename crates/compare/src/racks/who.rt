// Who answers at each of the 65,536 addresses: a table over all of them, in which each card is entered at its eight locations. It is of
// numbers, as all of the second model: apart.rt says why.

// By address: eight times the place of the card that answers there and the location within it; or nobody.
pub(super) type Who = [u8; 65536];

pub(super) const NOBODY: u8 = 255;

// How many locations a card has.
pub(super) const LOCATIONS: u8 = 8;

const LAST_ADDRESS: u64 = 65535;

pub(super) fn place(entry: u8) -> u8 {
    entry / LOCATIONS
}

// The four registers are there twice.
pub(super) fn register(entry: u8) -> u8 {
    entry % 4
}

// Whether it is the second of the two.
pub(super) fn is_second_copy(entry: u8) -> bool {
    entry % LOCATIONS > 3
}

// Enters one location of a card. Behind the last address there is none to enter.
fn enter_location(who: &mut Who, base: u16, place: u8, location: u8) {
    let address = base as u64 + location as u64;
    if address <= LAST_ADDRESS {
        who[address as usize] = place % 8 * LOCATIONS + location % LOCATIONS;
    }
}

fn enter_card(who: &mut Who, base: u16, place: u8) {
    for location in 0..LOCATIONS {
        enter_location(who, base, place, location);
    }
}

// Enters the cards that there are, from the last to the first, so that where several answer the first one stays.
pub(super) fn enter(who: &mut Who, bases: [u16; 8], cards: u8) {
    for (place, base) in (0..8).zip(bases).rev() {
        if place < cards {
            enter_card(who, base, place);
        }
    }
}
