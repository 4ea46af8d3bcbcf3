//! Whether bytes are the image of a state. The eight bytes from the conditions to the bus are judged together, as one number, by bits that must be as
//! in a chip at rest. The mode word tells which these are.
ghost use Rattle.std.specs.Prelude.{◌≡◌, ◌+◌, ◌/◌, ◌%◌, ◌^◌, ◌<◌, ◌&&◌, ltb};
ghost use Rattle.std.specs.Int.RustNames.{bit_xor};
ghost use Rattle.image.specs.Places as places;
ghost use Rattle.image.specs.Loaded.{byte_at, wide_at, eight_at};
ghost use Rattle.image.specs.Good.{writes, cycle_fits, edition_fits, unused_zero, core_fits, bytes_fit, is_image};
ghost use Rattle.image.specs.Masks.{masks_of};

use super::places::{CONDITIONS, EDITION, IDLE, LENGTH, NEWER, OLDER, WORD, WRITES};
use chip::CONTROL;

// The number of these bytes in a chip at rest: its channels are empty, of the mode word bit 7 alone is set, and nothing runs on the bus.
const AT_REST: u64 = (IDLE as u64) << 48 | 0x80 << 32;

// The condition of an input is joined by `|` with the next number: 0, 1 and 2 become 1, 3 and 3, and any other has a bit above these.
const NEXT_OF_INPUTS: u64 = 0x1_0001;

// The bits that must be as at rest where the word strobes no channel. From the highest byte on: all of the bus; the five of the enables that are not
// used; bit 7 of the word; and of the conditions, B out, B in, A out and A in, all but bit 0 of an input, for 0 becomes 1 there.
const FIXED: u64 = 0xffff_ab80_fffe_fffe;

// The bit besides that may differ in the condition of a channel that the word strobes: an output may be 1, and an input 1 or 2, which become 3.
const A_IN: u64 = 0x02;

const A_OUT: u64 = 0x01 << 8;

const B_IN: u64 = 0x02 << 16;

const B_OUT: u64 = 0x01 << 24;

// A row for each way that the bytes of group A go, and in it a number for each way of group B: none, twice, for an output and an input in mode 0;
// out; and in.
const NO_HANDSHAKE: [u64; 4] = [FIXED, FIXED, FIXED & !B_OUT, FIXED & !B_IN];

const OUTPUT: [u64; 4] = [
    FIXED & !A_OUT,
    FIXED & !A_OUT,
    FIXED & !(A_OUT | B_OUT),
    FIXED & !(A_OUT | B_IN),
];

const INPUT: [u64; 4] = [
    FIXED & !A_IN,
    FIXED & !A_IN,
    FIXED & !(A_IN | B_OUT),
    FIXED & !(A_IN | B_IN),
];

const BOTH_WAYS: [u64; 4] = [
    FIXED & !(A_IN | A_OUT),
    FIXED & !(A_IN | A_OUT),
    FIXED & !(A_IN | A_OUT | B_OUT),
    FIXED & !(A_IN | A_OUT | B_IN),
];

// The rows by bits 6 to 3 of the mode word: the mode and the direction of group A, and the direction of upper C, which says nothing here. A static
// is read from memory in any build.
static MASKS: [[u64; 4]; 16] = [
    NO_HANDSHAKE,
    NO_HANDSHAKE,
    NO_HANDSHAKE,
    NO_HANDSHAKE,
    OUTPUT,
    OUTPUT,
    INPUT,
    INPUT,
    BOTH_WAYS,
    BOTH_WAYS,
    BOTH_WAYS,
    BOTH_WAYS,
    BOTH_WAYS,
    BOTH_WAYS,
    BOTH_WAYS,
    BOTH_WAYS,
];

// The number of the eight bytes from a place on, the lowest first.
fn eight(image: &[u8; LENGTH], at: usize) -> u64
    requires { at + 7 < places.length }
    ensures { result ≡ eight_at image.now at }
{
    u64::from_le_bytes([
        image[at],
        image[at + 1],
        image[at + 2],
        image[at + 3],
        image[at + 4],
        image[at + 5],
        image[at + 6],
        image[at + 7],
    ])
}

// All rows are read as one: the bits that choose the row and those that choose in it stand side by side in the word.
fn masks(word: u8) -> u64
    ensures { result ≡ masks_of word }
{
    MASKS.as_flattened()[(word >> 1 & 0x3f) as usize]
}

// The bits that are not as in an image on an idle bus. The rotation puts those of the bus lowest. Above them stands what is wrong in the core: if it
// fits, nothing.
#[tactic(auto, using(crate::proofs::Judged::core_lowest, crate::proofs::Judged::bus_lowest))]
fn wrong_bits(image: &[u8; LENGTH]) -> u64
    ensures core { ltb result (2 ^ 16) ≡ core_fits (byte_at image.now) }
    ensures bus { result < 2 ^ 16 → result ≡ bit_xor (wide_at image.now places.bus) places.idle }
{
    let masks = masks(image[WORD]);
    let differing = eight(image, CONDITIONS) ^ AT_REST;
    let wrong = (differing | differing.wrapping_add(NEXT_OF_INPUTS)) & masks;
    wrong.rotate_left(16)
}

// Whether the number is that of a bus on which a write runs. The two lowest bits are the address, and the upper byte is what is written.
#[tactic(auto, using(crate::proofs::Running::write_asked))]
fn writes(bus: u64) -> bool
    ensures { result ≡ (ltb bus (2 ^ 16) && writes (bus % 256)) }
{
    bus < 0x1_0000 && bus & 0xfc == WRITES as u64
}

// Whether the number is that of a bus that fits. The edition is lent, so that it is looked at for a read of control alone.
fn cycle_fits(edition: &u8, bus: u64) -> bool
    ensures { result ≡ (ltb bus (2 ^ 16) && cycle_fits edition.now (bus % 256) (bus / 256)) }
{
    bus == IDLE as u64
        || bus < CONTROL as u64
        || writes(bus)
        || bus == CONTROL as u64 && *edition != OLDER
}

// The edition, and what is not used behind it, which is 0: eight bytes of which the edition is the lowest, and sixteen.
#[tactic(auto, using(crate::proofs::Zeros::all_fit, crate::proofs::Zeros::up_to_newer))]
fn rest_fits(image: &[u8; LENGTH]) -> bool
    ensures { result ≡ (edition_fits (byte_at image.now places.edition) && unused_zero image.now) }
{
    eight(image, EDITION) <= NEWER as u64
        && (eight(image, EDITION + 8) | eight(image, EDITION + 16)) == 0
}

// Mostly nothing is wrong: the core fits, and the bus is idle. Otherwise the bus is made of the bits in which it differs from an idle one; where the
// core does not fit, that number is no bus's.
fn fits(image: &[u8; LENGTH]) -> bool
    ensures { result ≡ bytes_fit image.now }
{
    let wrong = wrong_bits(image);
    if wrong == 0 {
        return rest_fits(image);
    }
    cycle_fits(&image[EDITION], wrong ^ IDLE as u64) && rest_fits(image)
}

/// Whether the bytes are the image of a state. Those of another length are none.
#[inline(always)]
#[tactic(auto, unfolding(crate::specs::Good::is_image))]
pub fn good(image: &[u8]) -> bool
    ensures { result ≡ is_image image.now }
{
    let Some(image) = image.as_array() else {
        return false;
    };
    fits(image)
}
