//! What the processor reads of a port, and what the outside sees of it.
ghost use Rattle.std.specs.Prelude.{◌≡◌};
ghost use Rattle.chip.specs.Held.{address_of};
ghost use Rattle.chip.specs.InForce.{half_of};
ghost use Rattle.chip.specs.Reads.{read_lines, read_control, read_of};
ghost use Rattle.chip.specs.Pins.{drives_port, pins_of_lines, pins_of};

use super::channel::Side;
use super::handshakes::{ACK_A, LINE_B, STB_A};
use super::holder::Holder;
use super::in_force::in_force;
use super::{CONTROL, PORT_A, PORT_B, PORT_C};
use bus::Pins;
use control::mode::Mode;
use control::{Group, mode, roles};

// The bit that makes a word for control a mode word. It is set in what is read back.
const MODE_BIT: u8 = 7;

// Of the handshakes' pins on port C those that the chip drives: all but STB and ACK.
const SIGNALS: u8 = !(1 << STB_A | 1 << ACK_A | 1 << LINE_B);

// The halves of port C, each with a direction of its own.
const UPPER_HALF: u8 = 0xf0;

const LOWER_HALF: u8 = 0x0f;

#[tactic(auto, using(crate::proofs::AtAddress::read_there), unfolding(crate::specs::Reads::read_port))]
pub(super) fn read_port<Home, H: Holder<Home>>(holder: &H, group: Group) -> u8
    ensures { result ≡ read_of (H.way.chip holder.now) (address_of group) }
{
    let word = holder.word();
    if mode::strobed_input(word, group) {
        holder.channel(group, Side::Input).latch
    } else if mode::output(word, group) {
        holder.channel(group, Side::Output).latch
    } else {
        holder.outside(group)
    }
}

#[tactic(auto, using(crate::proofs::AtAddress::pins_there), unfolding(crate::specs::Pins::pins_of_port))]
fn pins_of_port<Home, H: Holder<Home>>(holder: &H, group: Group) -> Pins
    ensures { result ≡ pins_of (H.way.chip holder.now) (address_of group) }
{
    if drives(holder, group) {
        Pins {
            levels: holder.channel(group, Side::Output).latch,
            driven: 0xff,
        }
    } else {
        Pins {
            levels: holder.outside(group),
            driven: 0,
        }
    }
}

// Whether the chip drives port A or B.
#[tactic(auto, unfolding(crate::specs::Pins::drives_port))]
fn drives<Home, H: Holder<Home>>(holder: &H, group: Group) -> bool
    ensures { result ≡ drives_port (H.way.chip holder.now).core group }
{
    let word = holder.word();
    match group {
        Group::A => match Mode::of(word, Group::A) {
            Mode::Two => !bits::bit(holder.outside_c(), ACK_A),
            Mode::Zero | Mode::One => mode::output(word, Group::A),
        },
        Group::B => mode::output(word, Group::B),
    }
}

#[tactic(auto, unfolding(crate::specs::Reads::read_control))]
fn read_control(word: u8) -> u8
    ensures { result ≡ read_control word }
{
    bits::with_bit(word, MODE_BIT, true)
}

// Levels of port C with one half as it is where no handshake has a pin: an input has what is outside there, and an output is left as it is.
#[inline(always)]
fn half<Home, H: Holder<Home>>(holder: &H, input: bool, pins: u8, levels: u8) -> u8
    ensures { result ≡ half_of (H.way.chip holder.now) input pins levels }
{
    if input {
        bits::blend(pins, holder.outside_c(), levels)
    } else {
        levels
    }
}

// Port C, all pins at once: what the handshakes tell on their pins; elsewhere an input half has what is outside, and an output half the latch.
#[inline(always)]
#[tactic(auto, using(crate::proofs::LinesInForce::lines_in_force))]
fn read_lines<Home, H: Holder<Home>>(holder: &H) -> u8
    ensures { result ≡ read_lines (H.way.chip holder.now) }
{
    let handshakes = in_force(holder);
    let inputs = mode::directions(holder.word());
    let upper = half(holder, inputs.upper, UPPER_HALF, holder.latch_c());
    let free = half(holder, inputs.lower, LOWER_HALF, upper);
    bits::blend(handshakes.pins, handshakes.told, free)
}

/// What a read at the address answers: one of the ports A, B and C, or control, and 00 where there is neither.
#[inline(always)]
#[tactic(auto, unfolding(crate::specs::Reads::read_of))]
pub fn read<Home, H: Holder<Home>>(holder: &H, address: u8) -> u8
    ensures { result ≡ read_of (H.way.chip holder.now) address }
{
    match address {
        PORT_A => read_port(holder, Group::A),
        PORT_B => read_port(holder, Group::B),
        PORT_C => read_lines(holder),
        CONTROL => read_control(holder.word()),
        _ => 0,
    }
}

// Port C: its free outputs and the signals of its handshakes are driven.
#[tactic(auto, using(crate::proofs::LinesInForce::pins_in_force))]
fn pins_of_lines<Home, H: Holder<Home>>(holder: &H) -> Pins
    ensures { result ≡ pins_of_lines (H.way.chip holder.now) }
{
    let handshakes = in_force(holder);
    let driven = bits::blend(handshakes.pins, SIGNALS, roles::outputs(holder.word()));
    let shown = bits::blend(handshakes.pins, handshakes.told, holder.latch_c());
    Pins {
        levels: bits::blend(driven, shown, holder.outside_c()),
        driven,
    }
}

/// The pins of a port. There are no ports but A, B and C: the levels of another are 00, and none is driven.
#[inline(always)]
#[tactic(auto, unfolding(crate::specs::Pins::pins_of))]
pub fn pins<Home, H: Holder<Home>>(holder: &H, port: u8) -> Pins
    ensures { result ≡ pins_of (H.way.chip holder.now) port }
{
    match port {
        PORT_A => pins_of_port(holder, Group::A),
        PORT_B => pins_of_port(holder, Group::B),
        PORT_C => pins_of_lines(holder),
        _ => Pins::default(),
    }
}
