//! What the bytes of an image tell. Each bound is by the width of what is read there: a type of a place would need one for every width.
ghost use Rattle.std.specs.Prelude.{◌≡◌, ◌+◌, ◌<◌};
ghost use Rattle.image.specs.Places as places;
ghost use Rattle.image.specs.Loaded.{wide_at, tally_at, fill_as, channel_at, enables_as, phase_as, edition_as, state_of};
ghost use Rattle.image.specs.Slices.{loaded_from};

use super::check;
use super::places::{
    BUS, CHANNEL_TALLIES, CONDITIONS, EDITION, ENABLES, IDLE, LATCH_C, LATCHES, LENGTH, LEVELS_A,
    LEVELS_B, LEVELS_C, OLDER, TALLIES, WORD, WRITES, WRITTEN,
};
use bus::Phase;
use chip::channel::{Channel, Fill, Tally};
use chip::handshakes::{ACK_A, LINE_B, STB_A};
use chip::{Chip, Core, Edition, Enables, Port, PortC};

// The number of the two bytes from a place on.
fn wide(image: &[u8; LENGTH], at: usize) -> u16
    requires { at + 1 < places.length }
    ensures { result ≡ wide_at image.now at }
{
    u16::from_le_bytes([image[at], image[at + 1]])
}

fn tally(image: &[u8; LENGTH], at: usize) -> Tally
    requires { at + 13 < places.length }
    ensures { result ≡ tally_at image.now at }
{
    Tally {
        offered: wide(image, at),
        handed: wide(image, at + 2),
        overwritten: wide(image, at + 4),
        swallowed: wide(image, at + 6),
        cleared: wide(image, at + 8),
        planted: wide(image, at + 10),
        struck: wide(image, at + 12),
    }
}

// The condition that a byte tells. No `From`: a byte above 2 tells none, and is judged in check.rt.
fn fill(byte: u8) -> Fill
    ensures { result ≡ fill_as byte }
{
    match byte {
        0 => Fill::Empty,
        1 => Fill::Waiting,
        _ => Fill::Fetching,
    }
}

pub(super) fn channel(image: &[u8; LENGTH], k: usize) -> Channel
    requires { k < 4 }
    ensures { result ≡ channel_at image.now k }
{
    Channel {
        fill: fill(image[CONDITIONS + k]),
        latch: image[LATCHES + k],
        tally: tally(image, TALLIES + CHANNEL_TALLIES * k),
    }
}

// The enables that a byte tells, each on the pin of its handshake's line.
pub(super) fn enables(byte: u8) -> Enables
    ensures { result ≡ enables_as byte }
{
    Enables {
        input: bits::bit(byte, STB_A),
        output: bits::bit(byte, ACK_A),
        b: bits::bit(byte, LINE_B),
    }
}

pub(super) fn phase(bus: u8, written: u8) -> Phase
    ensures { result ≡ phase_as bus written }
{
    if bus < WRITES {
        Phase::Reading(bus)
    } else if bus < IDLE {
        Phase::Writing(bus - WRITES, written)
    } else {
        Phase::Idle
    }
}

/// The edition that a byte tells.
pub fn edition(byte: u8) -> Edition
    ensures { result ≡ edition_as byte }
{
    if byte == OLDER {
        Edition::Older
    } else {
        Edition::Newer
    }
}

#[tactic(auto, unfolding(crate::specs::Loaded::state_of))]
fn whole(image: &[u8; LENGTH]) -> Chip
    ensures { result ≡ state_of image.now }
{
    Chip {
        phase: phase(image[BUS], image[WRITTEN]),
        edition: edition(image[EDITION]),
        core: Core {
            word: image[WORD],
            a: Port {
                input: channel(image, 0),
                output: channel(image, 1),
                outside: image[LEVELS_A],
            },
            b: Port {
                input: channel(image, 2),
                output: channel(image, 3),
                outside: image[LEVELS_B],
            },
            c: PortC {
                latch: image[LATCH_C],
                outside: image[LEVELS_C],
            },
            inte: enables(image[ENABLES]),
        },
    }
}

/// The chip that the bytes hold; `None` where they are no image. What `save::state` writes of a chip is such an image, if it has one.
#[tactic(auto, using(crate::proofs::Long::is_long), unfolding(crate::specs::Slices::loaded_from))]
pub fn state(image: &[u8]) -> Option<Chip>
    ensures { result ≡ loaded_from image.now }
{
    if !check::good(image) {
        return None;
    }
    Some(whole(image.as_array()?))
}
