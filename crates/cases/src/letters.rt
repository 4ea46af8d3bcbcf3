// The letters of the pins, the same for every device: A to D name a port; there is no port D, and on the 8355 no C. A capital letter is the
// levels of its pins, a small one those that are driven. And the digits of the channels of an 8255A.
use bus::Pins;
use bus::devices::Device;
use chip::channel::Side;
use control::Group;
use std::io;

pub(super) fn port(name: u8) -> u8 {
    match name {
        b'A' | b'a' => 0,
        b'B' | b'b' => 1,
        b'C' | b'c' => 2,
        _ => 3,
    }
}

pub(super) fn show(rt: &impl Print, name: u8, pins: Pins) -> io::Result<()> {
    let shown = if name.is_ascii_lowercase() {
        pins.driven
    } else {
        pins.levels
    };
    print!(rt; "{shown:02X}")
}

// What a letter names of a device.
pub(super) fn pins(rt: &impl Print, device: &impl Device, name: u8) -> io::Result<()> {
    show(rt, name, device.pins(port(name)))
}

// The channel that a digit names. The digits are those of the cases: chip has no numbers for its channels.
pub(super) fn channel(name: u8) -> Option<(Group, Side)> {
    match name {
        b'0' => Some((Group::A, Side::Input)),
        b'1' => Some((Group::A, Side::Output)),
        b'2' => Some((Group::B, Side::Input)),
        b'3' => Some((Group::B, Side::Output)),
        _ => None,
    }
}
