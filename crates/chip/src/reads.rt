//! A read, which begins and ends: it hands over the byte of a strobed input, and then empties the channel.
ghost use Rattle.std.specs.Prelude.{◌≡◌};
ghost use Rattle.chip.specs.Moves.{after_hand_over};
ghost use Rattle.chip.specs.Held.{Leaves, address_of, on_channel};
ghost use Rattle.chip.specs.Reads.{read_of};
ghost use Rattle.chip.specs.Read.{after_read_begins, after_read_ends};

use super::channel::{Fill, Side};
use super::holder::Holder;
use super::pins::read;
use super::{PORT_A, PORT_B};
use control::{Group, mode};

// A byte that waits in a channel is handed over. Where none waits nothing is put, since to put a channel as it was costs as much.
#[inline(always)]
#[tactic(auto, using(crate::proofs::NoneWaits::none_handed_over))]
pub(super) fn hand_over<Home, H: Holder<Home>>(holder: &mut H, group: Group, side: Side, left: Fill)
    ensures { Leaves H.way holder.old holder.new (λ c. on_channel c group side (λ ch. after_hand_over ch left)) }
{
    let mut channel = holder.channel(group, side);
    if channel.fill.is_waiting() {
        channel.hand_over(left);
        holder.put_channel(group, side, channel);
    }
}

// A strobed input hands over the byte that waits in it, and is fetching.
#[inline(always)]
#[tactic(auto, using(crate::proofs::AtAddress::read_begins_there))]
fn fetch_from<Home, H: Holder<Home>>(holder: &mut H, group: Group)
    ensures { Leaves H.way holder.old holder.new (λ c. after_read_begins c (address_of group)) }
{
    if mode::strobed_input(holder.word(), group) {
        hand_over(holder, group, Side::Input, Fill::Fetching);
    }
}

#[inline(always)]
#[tactic(auto, using(crate::proofs::AtAddress::read_ends_there))]
fn finish<Home, H: Holder<Home>>(holder: &mut H, group: Group)
    ensures { Leaves H.way holder.old holder.new (λ c. after_read_ends c (address_of group)) }
{
    if mode::strobed_input(holder.word(), group) {
        let mut input = holder.channel(group, Side::Input);
        input.end_read();
        holder.put_channel(group, Side::Input, input);
    }
}

// A read at the address begins, and answers: a strobed input hands over the byte that waits in it, and is fetching. Where there is neither a
// port nor control the answer is 00. Data sheet: Input Control Signal Definition (INTR).
#[inline(always)]
#[tactic(auto, unfolding(crate::specs::Reads::read_of, crate::specs::Read::after_read_begins))]
pub(super) fn fetch<Home, H: Holder<Home>>(holder: &mut H, address: u8) -> u8
    ensures value { result ≡ read_of (H.way.chip holder.old) address }
    ensures left { Leaves H.way holder.old holder.new (λ c. after_read_begins c address) }
{
    let byte = read(holder, address);
    match address {
        PORT_A => fetch_from(holder, Group::A),
        PORT_B => fetch_from(holder, Group::B),
        _ => {}
    }
    byte
}

// A read at the address ends: a strobed input is empty, and a byte that still waits in it is swallowed. Data sheet: Input Control Signal
// Definition (IBF).
#[tactic(auto, unfolding(crate::specs::Read::after_read_ends))]
pub(super) fn end_read<Home, H: Holder<Home>>(holder: &mut H, address: u8)
    ensures { Leaves H.way holder.old holder.new (λ c. after_read_ends c address) }
{
    match address {
        PORT_A => finish(holder, Group::A),
        PORT_B => finish(holder, Group::B),
        _ => {}
    }
}
