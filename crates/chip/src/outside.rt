//! Levels put on the pins from outside: a fall of STB offers a byte, and a fall of ACK hands one over. While STB is low, levels on the
//! port itself go through to its input latch.
ghost use Rattle.std.specs.Prelude.{◌≡◌, ◌<◌};
ghost use Rattle.chip.specs.State.{with_port};
ghost use Rattle.chip.specs.Held.{Leaves, address_of};
ghost use Rattle.chip.specs.Levels.{fallen, line_falls, edges_on, after_levels_on_c, lets_through, after_levels};

use super::channel::{Fill, Side};
use super::handshakes::{line_pin, strobes};
use super::holder::Holder;
use super::reads::hand_over;
use super::{PORT_A, PORT_B, PORT_C};
use control::Group;

// Whether the level of a pin falls as the byte before becomes the byte after. It is asked of the byte of all that fall, which the compiler works
// out once for every pin.
#[tactic(auto, using(crate::proofs::Fallen::fallen_by_mask))]
fn falls(before: u8, after: u8, pin: u8) -> bool
    requires { pin < 8 }
    ensures { result ≡ fallen before after pin }
{
    let all_that_fall = before & !after;
    bits::bit(all_that_fall, pin)
}

// Whether the channel's STB or ACK falls; a channel that the mode word does not strobe takes no part.
fn line_falls<Home, H: Holder<Home>>(holder: &H, levels: u8, group: Group, side: Side) -> bool
    ensures { result ≡ line_falls (H.way.chip holder.now).core levels group side }
{
    falls(holder.outside_c(), levels, line_pin(group, side)) && strobes(holder.word(), group, side)
}

// The lines of a group as the levels of port C become these: its STB falls or its ACK, or both or neither.
#[tactic(auto, unfolding(crate::specs::Levels::edged))]
fn edges<Home, H: Holder<Home>>(holder: &mut H, after: u8, group: Group)
    ensures { Leaves H.way holder.old holder.new (λ c. with_port c group (edges_on c after group)) }
{
    if line_falls(holder, after, group, Side::Input) {
        let mut input = holder.channel(group, Side::Input);
        input.offer(holder.outside(group));
        holder.put_channel(group, Side::Input, input);
    }
    if line_falls(holder, after, group, Side::Output) {
        hand_over(holder, group, Side::Output, Fill::Empty);
    }
}

// The levels of port C: its falling edges act on both ports.
#[tactic(auto, unfolding(crate::specs::Levels::after_levels_on_c))]
fn put_on_lines<Home, H: Holder<Home>>(holder: &mut H, levels: u8)
    ensures { Leaves H.way holder.old holder.new (λ c. after_levels_on_c c levels) }
{
    edges(holder, levels, Group::A);
    edges(holder, levels, Group::B);
    holder.put_outside_c(levels);
}

// Whether the group's input lets levels through to its latch: it is strobed, and its STB is low.
fn lets_through<Home, H: Holder<Home>>(holder: &H, group: Group) -> bool
    ensures { result ≡ lets_through (H.way.chip holder.now).core group }
{
    !bits::bit(holder.outside_c(), line_pin(group, Side::Input))
        && strobes(holder.word(), group, Side::Input)
}

// Levels come onto the port's own lines, whether or not they go through to its input latch.
#[tactic(auto, using(crate::proofs::AtAddress::levels_there))]
fn put<Home, H: Holder<Home>>(holder: &mut H, group: Group, levels: u8)
    ensures { Leaves H.way holder.old holder.new (λ c. after_levels c (address_of group) levels) }
{
    if lets_through(holder, group) {
        holder.put_latch(group, Side::Input, levels);
    }
    holder.put_outside(group, levels);
}

// The outside levels of a port become these. On port C, where the mode word strobes a channel, an STB that falls offers the byte on the port's
// lines, and an ACK that falls takes the byte that waits; on port A or B levels go through to the input latch while STB is low. On a number that
// is no port nothing happens. Data sheet: Input Control Signal Definition (STB), Output Control Signal Definition (ACK).
#[tactic(auto, unfolding(crate::specs::Levels::after_levels))]
pub(super) fn put_levels<Home, H: Holder<Home>>(holder: &mut H, port: u8, levels: u8)
    ensures { Leaves H.way holder.old holder.new (λ c. after_levels c port levels) }
{
    match port {
        PORT_A => put(holder, Group::A, levels),
        PORT_B => put(holder, Group::B, levels),
        PORT_C => put_on_lines(holder, levels),
        _ => {}
    }
}
