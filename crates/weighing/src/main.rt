//! What an emulator in Rattle does with the chip, in small: a scale strobes a digit into port A, the program on the computer reads it and
//! writes it to port B for the printer, and the emulator asks why the printer's interrupt is quiet. Then it saves the chip, and restores it.
#![tactic(auto)]

ghost use Rattle.std.specs.Prelude.{◌≡◌, ◌++◌, OnOk, OnErr};
ghost use Rattle.bus.specs.Kinds.{begin_read};
ghost use Rattle.bus.specs.Histories.{cycle_end, read_from};
ghost use Rattle.bus.specs.Device.{number_in, step_in, run_in};
ghost use Rattle.bus.specs.Answers.{refusal_number, number_told, byte_told};
ghost use Rattle.chip.specs.Step.{device};

use bus::devices::{Device, step};
use bus::events::Event;
use bus::refusals::Refusal;
use chip::channel::Side;
use chip::{CONTROL, Chip, Edition, Levels, PORT_A, PORT_B, PORT_C};
use control::Group;
use image::places::{LENGTH, WORD};
use image::{load, save};
use std::io;

// Both groups in mode 1: port A is an input with STB and IBF, and port B an output with ACK and OBF.
const MODE_WORD: u8 = 0xb4;

// Sets the interrupt enable of group B, which has the number of its ACK pin.
const ENABLE_PRINTER: u8 = 0x05;

// Pin 4 of port C, which the scale lowers and raises when a digit stands on the lines of port A.
const STB: u8 = 1 << 4;

// Pin 5 of port C, which is high from the fall of STB to the end of the read of port A.
const IBF: u8 = 1 << 5;

fn write(chip: &mut Chip, address: u8, byte: u8) -> Result<(), Refusal> {
    step(chip, Event::BeginWrite(address, byte))?;
    step(chip, Event::EndCycle)?;
    Ok(())
}

// A whole read of a port. The contract says by the definitions of `bus` what it answers and what it leaves, and that a beginning which is
// accepted can be ended.
#[tactic(auto, unfolding(bus::specs::Device::step_in, bus::specs::Refusals::number_of))]
fn read(chip: &mut Chip, port: u8) -> Result<u8, Refusal>
    ensures number { number_told refusal_number result ≡ number_in device chip.old begin_read port }
    ensures byte { byte_told result ≡ (step_in device chip.old begin_read port 0).byte }
    ensures ended { OnOk result (chip.new ≡ run_in device chip.old (read_from port ++ cycle_end)) }
    ensures refused { OnErr result (chip.new ≡ chip.old) }
{
    let byte = step(chip, Event::BeginRead(port))?;
    step(chip, Event::EndCycle)?;
    Ok(byte)
}

// Sets up the ports, and sends a digit from the scale on to the printer; `None` where no byte came in.
fn weigh(chip: &mut Chip) -> Result<Option<u8>, Refusal> {
    write(chip, CONTROL, MODE_WORD)?;
    write(chip, CONTROL, ENABLE_PRINTER)?;

    // The scale puts a digit on its lines, and STB falls and rises.
    step(chip, Event::OutsideLevels(PORT_A, b'7'))?;
    step(chip, Event::OutsideLevels(PORT_C, !STB))?;
    step(chip, Event::OutsideLevels(PORT_C, 0xff))?;

    // The program sees by IBF that a byte waits.
    if read(chip, PORT_C)? & IBF == 0 {
        return Ok(None);
    }
    let digit = read(chip, PORT_A)?;
    write(chip, PORT_B, digit)?;
    Ok(Some(digit))
}

// What is restored from bytes in which the chip was saved.
fn told(saved: &[u8], chip: &Chip) -> &'static str {
    match load::state(saved) {
        Some(restored) if restored == *chip => "the same chip",
        Some(_) => "another chip",
        None => "no chip",
    }
}

fn main(rt: HostRuntime) -> io::Result<()> {
    let mut chip = Chip::new(Edition::Older, Levels::HIGH);
    match weigh(&mut chip) {
        Ok(Some(digit)) => println!(rt; "the scale sent {digit:02X}")?,
        Ok(None) => println!(rt; "the scale sent nothing")?,
        Err(refusal) => println!(rt; "refused: {refusal:?}")?,
    }
    println!(rt; "the printer sees {:02X}", chip.pins(PORT_B).levels)?;
    println!(rt; "its interrupt: {:?}", chip.explain(Group::B))?;
    let scale = chip.tally(Group::A, Side::Input);
    println!(rt;
        "from the scale: {} offered, {} handed over",
        scale.offered, scale.handed
    )?;
    let mut saved = [0; LENGTH];
    save::state(&mut saved, &chip);
    println!(rt; "restored: {}", told(&saved, &chip))?;
    saved[WORD] = 0;
    println!(rt; "with a byte damaged: {}", told(&saved, &chip))
}
