// What a letter names of the 8355 alone.
use super::answers::Fields;
use i8355::Chip8355;
use std::io;

impl Fields for Chip8355 {
    fn field(&self, rt: &impl Print, name: u8) -> io::Result<()> {
        let ports = &self.ports;
        match name {
            b'E' => print!(rt; "{:02X}", ports.a.latch),
            b'e' => print!(rt; "{:02X}", ports.a.direction),
            b'F' => print!(rt; "{:02X}", ports.b.latch),
            b'f' => print!(rt; "{:02X}", ports.b.direction),
            _ => print!(rt; "-"),
        }
    }
}
