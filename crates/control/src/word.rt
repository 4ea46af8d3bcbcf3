//! A byte written to the control address: a mode word, or the setting of one pin of port C.
ghost use Rattle.std.specs.Prelude.{◌≡◌};
ghost use Rattle.control.specs.Word.{control_of};

/// A mode word, or a pin and the value that it is put to.
#[derive(Clone, Copy, Debug, PartialEq, Eq)]
pub enum Control {
    Mode(u8),
    Bit(u8, bool),
}

impl Control {
    /// What a byte written to the control address says: bit 7 chooses; the pin stands in bits 3 to 1, and its value in bit 0. Data sheet:
    /// Mode Definition Format, Bit Set/Reset Format.
    #[tactic(auto, unfolding(crate::specs::Word::control_of))]
    pub fn of(byte: u8) -> Control
        ensures { result ≡ control_of byte }
    {
        if bits::bit(byte, 7) {
            Control::Mode(byte)
        } else {
            Control::Bit((byte >> 1) & 7, bits::bit(byte, 0))
        }
    }
}
