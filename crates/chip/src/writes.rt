//! The end of a write, when the byte takes effect.
ghost use Rattle.std.specs.Prelude.{◌≡◌, cond, eqb};
ghost use Rattle.control.specs.Mode.{mode_number};
ghost use Rattle.chip.specs.Held.{Leaves, address_of};
ghost use Rattle.chip.specs.Write.{latch_written, after_write_ends};

use super::channel::Side;
use super::holder::Holder;
use super::settings::command;
use super::{CONTROL, PORT_A, PORT_B, PORT_C};
use control::mode::Mode;
use control::{Group, mode, roles};

// A write to port A or B: nothing happens where the port is no output. The byte is offered where ACK takes the bytes, and otherwise only
// stored.
#[inline(always)]
#[tactic(auto, using(crate::proofs::AtAddress::write_ends_there), unfolding(crate::specs::Write::stored_by))]
fn store<Home, H: Holder<Home>>(holder: &mut H, group: Group, byte: u8)
    ensures { Leaves H.way holder.old holder.new (λ c. after_write_ends c (address_of group) byte) }
{
    let word = holder.word();
    if mode::output(word, group) {
        if mode::strobed_output(word, group) {
            let mut output = holder.channel(group, Side::Output);
            output.offer(byte);
            holder.put_channel(group, Side::Output, output);
        } else {
            holder.put_latch(group, Side::Output, byte);
        }
    }
}

// The pins of port C that a write may reach in a mode of group A: the lower half, and the upper in mode 0 alone.
fn reached(mode: Mode) -> u8
    ensures { result ≡ cond (eqb (mode_number mode) 0) 0xff 0x0f }
{
    match mode {
        Mode::Zero => 0xff,
        Mode::One | Mode::Two => 0x0f,
    }
}

// Port C's latch: of the free outputs those that the write reaches take the byte.
#[inline(always)]
#[tactic(auto, using(crate::proofs::ByMasks::latch_by_masks))]
fn latch(word: u8, before: u8, byte: u8) -> u8
    ensures { result ≡ latch_written word before byte }
{
    let mask = roles::outputs(word) & reached(Mode::of(word, Group::A));
    bits::blend(mask, byte, before)
}

// A write of the byte to the address ends: a port that is an output stores it, and offers it where it is strobed; of port C the free
// outputs that the write reaches take it; at the control address it is a command. Data sheet: Mode 0 (Basic Input/Output), Output Control
// Signal Definition (OBF).
#[inline(always)]
#[tactic(auto, unfolding(crate::specs::Write::after_write_ends))]
pub(super) fn end_write<Home, H: Holder<Home>>(holder: &mut H, address: u8, byte: u8)
    ensures { Leaves H.way holder.old holder.new (λ c. after_write_ends c address byte) }
{
    match address {
        PORT_A => store(holder, Group::A, byte),
        PORT_B => store(holder, Group::B, byte),
        PORT_C => holder.put_latch_c(latch(holder.word(), holder.latch_c(), byte)),
        CONTROL => command(holder, byte),
        _ => {}
    }
}
