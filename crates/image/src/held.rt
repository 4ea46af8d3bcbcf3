//! The bytes of an image hold its chip: each part is read where it stands, and put back there.
ghost use Rattle.std.specs.Prelude.{◌≡◌, ◌<◌};
ghost use Rattle.image.specs.Held.{in_bytes};
ghost use Rattle.image.specs.Layout.{number_of};

use super::places::{
    BUS, EDITION, ENABLES, LATCH_C, LATCHES, LENGTH, LEVELS_A, LEVELS_B, LEVELS_C, WORD, WRITES,
    WRITTEN,
};
use super::{load, save};
use bus::Phase;
use chip::channel::{Channel, Side};
use chip::holder::Holder;
use chip::{Edition, Enables, PORT_A, PORT_B};
use control::Group;

/// Names this crate as the one that says how an image holds a chip, and has no other use.
pub struct Image;

// The number of a channel, in the order in which an image has them.
fn number(group: Group, side: Side) -> usize
    ensures number { result ≡ number_of group side }
    ensures below { result < 4 }
{
    match (group, side) {
        (Group::A, Side::Input) => 0,
        (Group::A, Side::Output) => 1,
        (Group::B, Side::Input) => 2,
        (Group::B, Side::Output) => 3,
    }
}

impl Holder<Image> for [u8; LENGTH] {
    ghost way = { in_bytes };

    #[tactic(auto, unfolding(crate::specs::Loaded::state_of))]
    fn phase(&self) -> Phase {
        load::phase(self[BUS], self[WRITTEN])
    }

    #[tactic(auto, using(crate::proofs::OwnCycle::runs_there))]
    fn runs(&self, group: Group, side: Side) -> bool {
        self[BUS]
            == match (group, side) {
                (Group::A, Side::Input) => PORT_A,
                (Group::A, Side::Output) => WRITES + PORT_A,
                (Group::B, Side::Input) => PORT_B,
                (Group::B, Side::Output) => WRITES + PORT_B,
            }
    }

    #[tactic(auto, unfolding(crate::specs::Loaded::state_of))]
    fn edition(&self) -> Edition {
        load::edition(self[EDITION])
    }

    #[tactic(auto, unfolding(crate::specs::Loaded::state_of))]
    fn word(&self) -> u8 {
        self[WORD]
    }

    #[tactic(auto, unfolding(crate::specs::Loaded::state_of))]
    fn channel(&self, group: Group, side: Side) -> Channel {
        load::channel(self, number(group, side))
    }

    #[tactic(auto, unfolding(crate::specs::Loaded::state_of))]
    fn outside(&self, group: Group) -> u8 {
        match group {
            Group::A => self[LEVELS_A],
            Group::B => self[LEVELS_B],
        }
    }

    #[tactic(auto, unfolding(crate::specs::Loaded::state_of))]
    fn latch_c(&self) -> u8 {
        self[LATCH_C]
    }

    #[tactic(auto, unfolding(crate::specs::Loaded::state_of))]
    fn outside_c(&self) -> u8 {
        self[LEVELS_C]
    }

    #[tactic(auto, unfolding(crate::specs::Loaded::state_of))]
    fn enables(&self) -> Enables {
        load::enables(self[ENABLES])
    }

    #[tactic(auto, using(crate::proofs::PartPut::phase_left))]
    fn put_phase(&mut self, phase: Phase) {
        save::bus(self, phase);
    }

    #[tactic(auto, using(crate::proofs::PartPut::word_left))]
    fn put_word(&mut self, word: u8) {
        self[WORD] = word;
    }

    #[tactic(auto, using(crate::proofs::PartPut::channel_left))]
    fn put_channel(&mut self, group: Group, side: Side, channel: Channel) {
        save::channel(self, number(group, side), &channel);
    }

    #[tactic(auto, using(crate::proofs::PartPut::latch_left))]
    fn put_latch(&mut self, group: Group, side: Side, byte: u8) {
        self[LATCHES + number(group, side)] = byte;
    }

    #[tactic(auto, using(crate::proofs::PartPut::levels_a_left, crate::proofs::PartPut::levels_b_left))]
    fn put_outside(&mut self, group: Group, levels: u8) {
        match group {
            Group::A => self[LEVELS_A] = levels,
            Group::B => self[LEVELS_B] = levels,
        }
    }

    #[tactic(auto, using(crate::proofs::PartPut::latch_c_left))]
    fn put_latch_c(&mut self, byte: u8) {
        self[LATCH_C] = byte;
    }

    #[tactic(auto, using(crate::proofs::PartPut::levels_c_left))]
    fn put_outside_c(&mut self, levels: u8) {
        self[LEVELS_C] = levels;
    }

    #[tactic(auto, using(crate::proofs::PartPut::enables_left))]
    fn put_enables(&mut self, enables: Enables) {
        self[ENABLES] = save::enables(enables);
    }
}
