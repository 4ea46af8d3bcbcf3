//! The interrupt requests and the status word.
ghost use Rattle.std.specs.Prelude.{◌≡◌};
ghost use Rattle.chip.specs.Status.{flag_at, flag_of_b, intr_of, status_of};
ghost use Rattle.chip.specs.InForce.{asks_of};

use super::channel::Side;
use super::handshakes::{line_pin, strobes};
use super::holder::Holder;
use super::settings::side_of_b;
use control::Group;

// IBF or OBF of the channel.
pub(super) fn flag<Home, H: Holder<Home>>(holder: &H, group: Group, side: Side) -> bool
    ensures { result ≡ flag_at (H.way.chip holder.now).core group side }
{
    holder.channel(group, side).fill.flag(side)
}

// Whether the channel, if it is strobed, asks for an interrupt.
#[inline(always)]
pub(super) fn asks<Home, H: Holder<Home>>(holder: &H, group: Group, side: Side) -> bool
    ensures { result ≡ asks_of (H.way.chip holder.now) group side }
{
    holder.enables().enables(group, side)
        && flag(holder, group, side)
        && bits::bit(holder.outside_c(), line_pin(group, side))
        && !holder.runs(group, side)
}

// INTR of the group: a strobed channel of it asks.
#[tactic(auto, unfolding(crate::specs::Status::request_of, crate::specs::Status::intr_of))]
fn intr<Home, H: Holder<Home>>(holder: &H, group: Group) -> bool
    ensures { result ≡ intr_of (H.way.chip holder.now) group }
{
    let word = holder.word();
    strobes(word, group, Side::Input) && asks(holder, group, Side::Input)
        || strobes(word, group, Side::Output) && asks(holder, group, Side::Output)
}

// Group B's flag: its two channels share the pin.
fn flag_of_b<Home, H: Holder<Home>>(holder: &H) -> bool
    ensures { result ≡ flag_of_b (H.way.chip holder.now).core }
{
    match side_of_b(holder.word()) {
        Side::Input => flag(holder, Group::B, Side::Input),
        Side::Output => flag(holder, Group::B, Side::Output),
    }
}

/// The status word, whole: every flag, enable and request on the pin of port C that tells it where a handshake has that pin. Data sheet: Reading
/// Port C Status.
#[tactic(auto, unfolding(crate::specs::Status::status_of))]
pub fn status<Home, H: Holder<Home>>(holder: &H) -> u8
    ensures { result ≡ status_of (H.way.chip holder.now) }
{
    let enables = holder.enables();
    bits::byte(
        flag(holder, Group::A, Side::Output),
        enables.output,
        flag(holder, Group::A, Side::Input),
        enables.input,
        intr(holder, Group::A),
        enables.b,
        flag_of_b(holder),
        intr(holder, Group::B),
    )
}
