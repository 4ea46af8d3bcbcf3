//! What an accepted event makes of whoever holds a chip.
ghost use Rattle.std.specs.Prelude.{◌≡◌};
ghost use Rattle.bus.specs.Answers.{after_event, byte_of};
ghost use Rattle.chip.specs.Held.{Becomes, Leaves, CanBegin};
ghost use Rattle.chip.specs.Step.{device, after_end};

use super::holder::Holder;
use super::{POWER_UP_WORD, outside, reads, settings, writes};
use bus::Phase;
use bus::events::Event;

// The cycle that runs on the bus takes effect as it ends.
#[inline(always)]
fn end_cycle<Home, H: Holder<Home>>(holder: &mut H)
    ensures { Leaves H.way holder.old holder.new (λ c. after_end c (H.way.chip holder.old).phase) }
{
    match holder.phase() {
        Phase::Idle => {}
        Phase::Reading(address) => reads::end_read(holder, address),
        Phase::Writing(address, byte) => writes::end_write(holder, address, byte),
    }
}

/// What an accepted event does. The byte of a read is given back, and of any other event 00. The byte of a write takes effect as the write ends,
/// and levels leave the bus as it is.
#[inline(always)]
pub fn accept<Home, H: Holder<Home>>(holder: &mut H, event: Event) -> u8
    ensures byte { result ≡ byte_of device event (H.way.chip holder.old) }
    ensures left { CanBegin H.way event → Becomes H.way holder.old holder.new (after_event device event) }
{
    match event {
        Event::Reset => {
            settings::renew(holder, POWER_UP_WORD);
            holder.put_phase(Phase::Idle);
        }
        Event::BeginRead(address) => {
            let byte = reads::fetch(holder, address);
            holder.put_phase(Phase::Reading(address));
            return byte;
        }
        Event::EndCycle => {
            end_cycle(holder);
            holder.put_phase(Phase::Idle);
        }
        Event::BeginWrite(address, byte) => holder.put_phase(Phase::Writing(address, byte)),
        Event::OutsideLevels(port, levels) => outside::put_levels(holder, port, levels),
    }
    0
}
