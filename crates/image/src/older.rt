//! A chip in 64 bytes, the older image: whether bytes are one (good), and the image that they become (convert). Nothing writes an older
//! image. All but its bus is put where an image has it, and is then judged as one.
ghost use Rattle.std.specs.Prelude.{◌≡◌};
ghost use Rattle.image.specs.OlderLoaded.{phase_as};
ghost use Rattle.image.specs.OlderGood.{cycle_fits, bytes_fit, is_older};
ghost use Rattle.image.specs.OlderSlices.{moved_of, converted_of, converted_in};

pub mod places;

use super::{check, places as now, save};
use bus::Phase;
use chip::CONTROL;
use places::{
    ADDRESS, BUS, CHANNEL_TALLIES, IDLE, LENGTH, LEVELS_A, READS, TALLIES, UNUSED, WRITES, WRITTEN,
};

// The bytes at the places of an image of the older edition, on an idle bus. The two tallies that an older image lacks are 0.
fn moved(older: &[u8; LENGTH]) -> [u8; now::LENGTH]
    ensures { result ≡ moved_of older.now }
{
    let mut moved = [0u8; now::LENGTH];
    moved[now::BUS] = now::IDLE;
    moved[now::EDITION] = now::OLDER;
    save::put(&mut moved, now::TALLIES, &older[TALLIES..CHANNEL_TALLIES]);
    save::put(
        &mut moved,
        now::CHANNEL_TALLIES,
        &older[CHANNEL_TALLIES..2 * CHANNEL_TALLIES],
    );
    save::put(
        &mut moved,
        2 * now::CHANNEL_TALLIES,
        &older[2 * CHANNEL_TALLIES..3 * CHANNEL_TALLIES],
    );
    save::put(
        &mut moved,
        3 * now::CHANNEL_TALLIES,
        &older[3 * CHANNEL_TALLIES..LEVELS_A],
    );
    save::put(&mut moved, now::LEVELS_A, &older[LEVELS_A..BUS]);
    save::put(&mut moved, now::UNUSED, &older[UNUSED..LENGTH]);
    moved
}

// Whether these three bytes are those of a cycle of the older edition, which does not read control.
fn cycle(bus: u8, address: u8, written: u8) -> bool
    ensures { result ≡ cycle_fits bus address written }
{
    match bus {
        IDLE => address == 0 && written == 0,
        READS => address < CONTROL && written == 0,
        WRITES => address <= CONTROL,
        _ => false,
    }
}

fn fits(image: &[u8; LENGTH]) -> bool
    ensures { result ≡ bytes_fit image.now }
{
    let moved = moved(image);
    cycle(image[BUS], image[ADDRESS], image[WRITTEN]) && check::good(&moved)
}

/// Whether the bytes are an older image of a state. Those of another length are none.
#[tactic(auto, unfolding(crate::specs::OlderGood::is_older))]
pub fn good(image: &[u8]) -> bool
    ensures { result ≡ is_older image.now }
{
    let Some(image) = image.as_array() else {
        return false;
    };
    fits(image)
}

fn phase(bus: u8, address: u8, written: u8) -> Phase
    ensures { result ≡ phase_as bus address written }
{
    match bus {
        IDLE => Phase::Idle,
        READS => Phase::Reading(address),
        _ => Phase::Writing(address, written),
    }
}

#[tactic(auto, unfolding(crate::specs::OlderLoaded::older_state))]
fn whole(older: &[u8; LENGTH], image: &mut [u8; now::LENGTH])
    ensures { image.new ≡ converted_of older.now }
{
    let moved = moved(older);
    let phase = phase(older[BUS], older[ADDRESS], older[WRITTEN]);
    *image = moved;
    save::bus(image, phase);
}

/// The image that the bytes become, written over those of image; of an older image it is the image of the same state. Where there are more
/// or fewer bytes than an older image has, or an image, nothing is written.
#[tactic(auto, unfolding(crate::specs::OlderSlices::converted_in))]
pub fn convert(older: &[u8], image: &mut [u8])
    ensures { image.new ≡ converted_in older.now image.old }
{
    if let Some(older) = older.as_array()
        && let Some(image) = image.as_mut_array()
    {
        whole(older, image);
    }
}
