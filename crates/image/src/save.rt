//! A state written as its image.
ghost use Rattle.std.specs.Prelude.{◌≡◌, ◌+◌, ◌≤◌, ◌<◌, length};
ghost use Rattle.std.proofs.lemmas.List.Edits.{sets};
ghost use Rattle.image.specs.Places as places;
ghost use Rattle.image.specs.Layout.{wide_bytes, tally_bytes, enables_byte, bus_byte, written_byte, core_bytes, bus_bytes, edition_byte, image_of};
ghost use Rattle.image.specs.Slices.{saved_in, channel_saved_in, bus_saved_in};

use super::places::{
    BUS, CHANNEL_TALLIES, CONDITIONS, EDITION, ENABLES, IDLE, LATCH_C, LATCHES, LENGTH, LEVELS_A,
    LEVELS_B, LEVELS_C, NOWHERE, TALLIES, UNUSED, WORD, WRITES, WRITTEN,
};
use bus::Phase;
use chip::channel::{Channel, Tally};
use chip::{Chip, Core, Edition, Enables};

// The bytes from a place on become these.
#[inline(always)]
#[tactic(auto, using(crate::proofs::Copied::copied))]
pub(super) fn put(image: &mut [u8; LENGTH], at: usize, bytes: &[u8])
    requires { at + length bytes.now ≤ places.length }
    ensures { image.new ≡ sets image.old at bytes.now }
{
    image[at..at + bytes.len()].copy_from_slice(bytes);
}

fn put_wide(image: &mut [u8; LENGTH], at: usize, value: u16)
    requires { at + 1 < places.length }
    ensures { image.new ≡ sets image.old at (wide_bytes value) }
{
    put(image, at, &value.to_le_bytes());
}

fn put_tally(image: &mut [u8; LENGTH], at: usize, tally: &Tally)
    requires { at + 13 < places.length }
    ensures { image.new ≡ sets image.old at (tally_bytes tally.now) }
{
    put_wide(image, at, tally.offered);
    put_wide(image, at + 2, tally.handed);
    put_wide(image, at + 4, tally.overwritten);
    put_wide(image, at + 6, tally.swallowed);
    put_wide(image, at + 8, tally.cleared);
    put_wide(image, at + 10, tally.planted);
    put_wide(image, at + 12, tally.struck);
}

// One channel, by its number: its tallies, its latch and its condition.
pub(super) fn channel(image: &mut [u8; LENGTH], k: usize, channel: &Channel)
    requires { k < 4 }
    ensures { image.new ≡ channel_saved_in image.old k channel.now }
{
    put_tally(image, TALLIES + CHANNEL_TALLIES * k, &channel.tally);
    image[LATCHES + k] = channel.latch;
    image[CONDITIONS + k] = channel.fill as u8;
}

pub(super) fn enables(inte: Enables) -> u8
    ensures { result ≡ enables_byte inte }
{
    bits::byte(
        false,
        inte.output,
        false,
        inte.input,
        false,
        inte.b,
        false,
        false,
    )
}

fn bus_byte(phase: Phase) -> u8
    ensures { result ≡ bus_byte phase }
{
    match phase {
        Phase::Idle => IDLE,
        Phase::Reading(address) if address < WRITES => address,
        Phase::Writing(address, _) if address < WRITES => { WRITES + address }
        Phase::Reading(_) | Phase::Writing(_, _) => NOWHERE,
    }
}

fn written(phase: Phase) -> u8
    ensures { result ≡ written_byte phase }
{
    match phase {
        Phase::Idle | Phase::Reading(_) => 0,
        Phase::Writing(_, byte) => byte,
    }
}

// A function, since with the cast in place the proof of the whole does not close.
fn edition_byte(edition: Edition) -> u8
    ensures { result ≡ edition_byte edition }
{
    edition as u8
}

#[tactic(auto, using(crate::proofs::WholeCore::by_parts))]
fn put_core(image: &mut [u8; LENGTH], core: &Core)
    ensures { image.new ≡ sets image.old places.tallies (core_bytes core.now) }
{
    channel(image, 0, &core.a.input);
    channel(image, 1, &core.a.output);
    channel(image, 2, &core.b.input);
    channel(image, 3, &core.b.output);
    image[LEVELS_A] = core.a.outside;
    image[LEVELS_B] = core.b.outside;
    image[LEVELS_C] = core.c.outside;
    image[LATCH_C] = core.c.latch;
    image[WORD] = core.word;
    image[ENABLES] = enables(core.inte);
}

/// What runs on the bus, for who leaves all else alone.
#[tactic(auto, unfolding(crate::specs::Slices::bus_saved_in))]
pub fn bus(image: &mut [u8; LENGTH], phase: Phase)
    ensures { image.new ≡ bus_saved_in image.old phase }
{
    image[BUS] = bus_byte(phase);
    image[WRITTEN] = written(phase);
}

#[tactic(auto, unfolding(crate::specs::Layout::image_of))]
fn whole(image: &mut [u8; LENGTH], chip: &Chip)
    ensures { image.new ≡ image_of chip.now }
{
    put_core(image, &chip.core);
    bus(image, chip.phase);
    image[EDITION] = edition_byte(chip.edition);
    put(image, UNUSED, &[0; LENGTH - UNUSED]);
}

/// The state's image, written over the bytes. Those of another length are left alone.
#[tactic(auto, unfolding(crate::specs::Slices::saved_in))]
pub fn state(image: &mut [u8], chip: &Chip)
    ensures { image.new ≡ saved_in image.old chip.now }
{
    if let Some(image) = image.as_mut_array() {
        whole(image, chip);
    }
}
