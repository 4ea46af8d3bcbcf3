//! What the handshakes in force have of port C: which pins, and what these tell. A group in mode 0 has none, and nothing of it is worked out.
ghost use Rattle.std.specs.Prelude.{◌≡◌};
ghost use Rattle.chip.specs.InForce.{on_pins, of_channel, joined, of_group, in_force};

use super::channel::Side;
use super::handshakes::{ACK_A, FLAG_B, IBF_A, LINE_B, OBF_A, STB_A};
use super::holder::Holder;
use super::status::{asks, flag};
use control::mode::Mode;
use control::{Group, mode};

// The pins of port C on which the chip shows INTR of group A and of group B.
const INTR_A: u8 = 3;

const INTR_B: u8 = 0;

// The pins that handshakes have, as ones, and what each of them tells.
#[derive(Clone, Copy)]
pub(super) struct Handshake {
    pub pins: u8,
    pub told: u8,
}

// A channel has three pins: that of its line, which tells the enable, its flag and INTR.
fn on_pins(group: Group, side: Side, enable: bool, flag: bool, intr: bool) -> Handshake
    ensures { result ≡ on_pins group side enable flag intr }
{
    match (group, side) {
        (Group::A, Side::Input) => Handshake {
            pins: 1 << IBF_A | 1 << STB_A | 1 << INTR_A,
            told: bits::byte(false, false, flag, enable, intr, false, false, false),
        },
        (Group::A, Side::Output) => Handshake {
            pins: 1 << OBF_A | 1 << ACK_A | 1 << INTR_A,
            told: bits::byte(flag, enable, false, false, intr, false, false, false),
        },
        (Group::B, _) => Handshake {
            pins: 1 << LINE_B | 1 << FLAG_B | 1 << INTR_B,
            told: bits::byte(false, false, false, false, false, enable, flag, intr),
        },
    }
}

// What a strobed channel has. Where its flag is down it does not ask for an interrupt, and nothing else of that is looked at.
#[inline(always)]
#[tactic(auto, using(crate::proofs::LinesInForce::flag_down), unfolding(crate::specs::InForce::of_channel))]
fn of_channel<Home, H: Holder<Home>>(holder: &H, group: Group, side: Side) -> Handshake
    ensures { result ≡ of_channel (H.way.chip holder.now) group side }
{
    let enable = holder.enables().enables(group, side);
    if flag(holder, group, side) {
        on_pins(group, side, enable, true, asks(holder, group, side))
    } else {
        on_pins(group, side, enable, false, false)
    }
}

fn joined(one: Handshake, other: Handshake) -> Handshake
    ensures { result ≡ joined one other }
{
    Handshake {
        pins: one.pins | other.pins,
        told: one.told | other.told,
    }
}

// What a group has: in mode 2 that of both its channels, and otherwise that of the one that is strobed.
#[inline(always)]
#[tactic(auto, unfolding(crate::specs::InForce::of_group))]
fn of_group<Home, H: Holder<Home>>(holder: &H, group: Group) -> Handshake
    ensures { result ≡ of_group (H.way.chip holder.now) group }
{
    let word = holder.word();
    if Mode::of(word, group) == Mode::Two {
        joined(
            of_channel(holder, group, Side::Input),
            of_channel(holder, group, Side::Output),
        )
    } else if mode::strobed_input(word, group) {
        of_channel(holder, group, Side::Input)
    } else if mode::strobed_output(word, group) {
        of_channel(holder, group, Side::Output)
    } else {
        Handshake { pins: 0, told: 0 }
    }
}

// What both groups have.
#[inline(always)]
#[tactic(auto, unfolding(crate::specs::InForce::in_force))]
pub(super) fn in_force<Home, H: Holder<Home>>(holder: &H) -> Handshake
    ensures { result ≡ in_force (H.way.chip holder.now) }
{
    joined(of_group(holder, Group::A), of_group(holder, Group::B))
}
