//! One event on the chip that an image tells, in its bytes. The bytes are checked first. Then each kind of event has a function of its own, which
//! gives the final number: the compiler makes of the call a jump, and works out in each no more than that kind asks for.
ghost use Rattle.std.specs.Prelude.{◌≡◌};
ghost use Rattle.bus.specs.declared.events.Event.TheVariants as events;
ghost use Rattle.calls.specs.Calls.{step_answer, step_image};
ghost use Rattle.calls.specs.Events.{Checked, event_answer, event_image};

use super::refusals::{CallRefusal, answer};
use bus::events::Event;
use bus::refusals::judge;
use chip::accept::accept;
use chip::holder::Holder;
use chip::{PORT_A, PORT_B, PORT_C};
use image::places::LENGTH;

// The event that is accepted, or refused by its number: what runs on the bus and the edition are all that a refusal looks at.
#[inline(always)]
#[tactic(auto, using(crate::proofs::OnChecked::on_checked))]
fn stepped(image: &mut [u8; LENGTH], event: Event) -> u32
    requires { Checked image.old }
    ensures value { result ≡ event_answer image.old event }
    ensures after { image.new ≡ event_image image.old event }
{
    match judge(image.edition().limits(), image.phase(), event) {
        Ok(()) => answer(Ok(u16::from(accept(image, event)))),
        Err(refusal) => answer(Err(CallRefusal::Event(refusal))),
    }
}

#[inline(never)]
fn reset(image: &mut [u8; LENGTH]) -> u32
    requires { Checked image.old }
    ensures value { result ≡ event_answer image.old events.Reset }
    ensures after { image.new ≡ event_image image.old events.Reset }
{
    stepped(image, Event::Reset)
}

// Each port is named by a constant, so that the compiler works out the rule of each by itself.
#[inline(never)]
fn read_begins(image: &mut [u8; LENGTH], address: u8) -> u32
    requires { Checked image.old }
    ensures value { result ≡ event_answer image.old (events.BeginRead address) }
    ensures after { image.new ≡ event_image image.old (events.BeginRead address) }
{
    match address {
        PORT_A => stepped(image, Event::BeginRead(PORT_A)),
        PORT_B => stepped(image, Event::BeginRead(PORT_B)),
        PORT_C => stepped(image, Event::BeginRead(PORT_C)),
        _ => stepped(image, Event::BeginRead(address)),
    }
}

#[inline(never)]
fn cycle_ends(image: &mut [u8; LENGTH]) -> u32
    requires { Checked image.old }
    ensures value { result ≡ event_answer image.old events.EndCycle }
    ensures after { image.new ≡ event_image image.old events.EndCycle }
{
    stepped(image, Event::EndCycle)
}

#[inline(never)]
fn write_begins(image: &mut [u8; LENGTH], address: u8, byte: u8) -> u32
    requires { Checked image.old }
    ensures value { result ≡ event_answer image.old (events.BeginWrite address byte) }
    ensures after { image.new ≡ event_image image.old (events.BeginWrite address byte) }
{
    stepped(image, Event::BeginWrite(address, byte))
}

#[inline(never)]
fn levels_come(image: &mut [u8; LENGTH], port: u8, levels: u8) -> u32
    requires { Checked image.old }
    ensures value { result ≡ event_answer image.old (events.OutsideLevels port levels) }
    ensures after { image.new ≡ event_image image.old (events.OutsideLevels port levels) }
{
    stepped(image, Event::OutsideLevels(port, levels))
}

// Each kind has a function of its own, which gives the final number: its call is a jump.
#[inline(always)]
fn by_kind(image: &mut [u8; LENGTH], event: Event) -> u32
    requires { Checked image.old }
    ensures value { result ≡ event_answer image.old event }
    ensures after { image.new ≡ event_image image.old event }
{
    match event {
        Event::Reset => reset(image),
        Event::BeginRead(address) => read_begins(image, address),
        Event::EndCycle => cycle_ends(image),
        Event::BeginWrite(address, byte) => write_begins(image, address, byte),
        Event::OutsideLevels(port, levels) => levels_come(image, port, levels),
    }
}

#[tactic(auto, using(crate::proofs::OnChecked::by_numbers))]
pub(super) fn step(image: &mut [u8; LENGTH], kind: u8, first: u8, second: u8) -> u32
    ensures value { result ≡ step_answer image.old kind first second }
    ensures after { image.new ≡ step_image image.old kind first second }
{
    if !image::check::good(image) {
        return answer(Err(CallRefusal::NoState));
    }
    match Event::numbered(kind, first, second) {
        Some(event) => by_kind(image, event),
        None => answer(Err(CallRefusal::NoSuchKind)),
    }
}
