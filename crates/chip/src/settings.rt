//! What the control address sets: a mode word, which makes the chip anew, and one pin of port C, which may be a channel's flag.
ghost use Rattle.std.specs.Prelude.{◌≡◌, ◌<◌};
ghost use Rattle.chip.specs.ModeWord.{after_mode_word};
ghost use Rattle.chip.specs.ControlWord.{set_as, pin_set, flag_put, after_control_word};
ghost use Rattle.chip.specs.Handshakes.{side_of_b};
ghost use Rattle.control.specs.Mode.{strobed_input};
ghost use Rattle.control.specs.declared.Group.TheVariants.{B};
ghost use Rattle.control.specs.Pins.{handshake_role};
ghost use Rattle.chip.specs.Moves.{after_clear};
ghost use Rattle.chip.specs.Held.{Leaves, on_channel};

use super::Enables;
use super::channel::Side;
use super::handshakes::{ACK_A, FLAG_B, IBF_A, LINE_B, OBF_A, STB_A};
use super::holder::Holder;
use control::word::Control;
use control::{Group, mode, roles};

fn clear<Home, H: Holder<Home>>(holder: &mut H, group: Group, side: Side)
    ensures { Leaves H.way holder.old holder.new (λ c. on_channel c group side after_clear) }
{
    let mut channel = holder.channel(group, side);
    channel.clear();
    holder.put_channel(group, side, channel);
}

// The flag of a channel is forced.
fn force<Home, H: Holder<Home>>(holder: &mut H, group: Group, side: Side, on: bool)
    ensures { Leaves H.way holder.old holder.new (λ c. flag_put c group side on) }
{
    let mut channel = holder.channel(group, side);
    channel.force(side, on);
    holder.put_channel(group, side, channel);
}

// The side of group B that its one flag belongs to, where it has a handshake.
pub(super) fn side_of_b(word: u8) -> Side
    ensures { result ≡ side_of_b word }
{
    if mode::strobed_input(word, Group::B) {
        Side::Input
    } else {
        Side::Output
    }
}

// The chip under a mode word: latches and enables zero, channels empty. The outside levels stay. Data sheet: Mode Selection.
#[tactic(auto, unfolding(crate::specs::ModeWord::after_mode_word, crate::specs::ModeWord::cleared_port))]
pub(super) fn renew<Home, H: Holder<Home>>(holder: &mut H, word: u8)
    ensures { Leaves H.way holder.old holder.new (λ c. after_mode_word c word) }
{
    clear(holder, Group::A, Side::Input);
    clear(holder, Group::A, Side::Output);
    clear(holder, Group::B, Side::Input);
    clear(holder, Group::B, Side::Output);
    holder.put_latch_c(0);
    holder.put_word(word);
    holder.put_enables(Enables::default());
}

// A pin that a handshake uses: the enable behind STB or ACK, or a flag, which is forced. INTR has nothing to set. The pin is a number below 8,
// here and in `set_pin`: a type for it would be a number again at each bit that is asked for.
#[tactic(auto, using(crate::proofs::PinByMasks::line_of_b, crate::proofs::PinByMasks::flag_of_b))]
fn set_line<Home, H: Holder<Home>>(holder: &mut H, pin: u8, on: bool)
    requires { pin < 8 }
    ensures { Leaves H.way holder.old holder.new (λ c. set_as c pin on (handshake_role (strobed_input c.word B) pin)) }
{
    let enables = holder.enables();
    match pin {
        STB_A => holder.put_enables(Enables {
            input: on,
            ..enables
        }),
        ACK_A => holder.put_enables(Enables {
            output: on,
            ..enables
        }),
        LINE_B => holder.put_enables(Enables { b: on, ..enables }),
        IBF_A => force(holder, Group::A, Side::Input, on),
        OBF_A => force(holder, Group::A, Side::Output, on),
        // Each side by its name: of a side that is a value the compiler would work out where the channel stands.
        FLAG_B => match side_of_b(holder.word()) {
            Side::Input => force(holder, Group::B, Side::Input, on),
            Side::Output => force(holder, Group::B, Side::Output, on),
        },
        _ => {}
    }
}

// One pin of port C set or reset: the latch of a free output, or what a handshake has there.
#[tactic(auto, using(crate::proofs::PinByMasks::set_by_masks))]
fn set_pin<Home, H: Holder<Home>>(holder: &mut H, pin: u8, on: bool)
    requires { pin < 8 }
    ensures { Leaves H.way holder.old holder.new (λ c. pin_set c pin on) }
{
    let word = holder.word();
    if bits::bit(roles::handshake(word), pin) {
        set_line(holder, pin, on);
    } else if bits::bit(roles::outputs(word), pin) {
        holder.put_latch_c(bits::with_bit(holder.latch_c(), pin, on));
    }
}

// The end of a write to the control address: a mode word, or a bit set/reset, which puts the latch of a free output, or the enable behind STB or
// ACK, or forces a flag. Data sheet: Mode Selection, Single Bit Set/Reset Feature, Interrupt Control Functions.
#[inline(never)]
#[tactic(auto, using(crate::proofs::PinByMasks::commanded))]
pub(super) fn command<Home, H: Holder<Home>>(holder: &mut H, byte: u8)
    ensures { Leaves H.way holder.old holder.new (λ c. after_control_word c byte) }
{
    match Control::of(byte) {
        Control::Mode(word) => renew(holder, word),
        Control::Bit(pin, on) => set_pin(holder, pin, on),
    }
}
