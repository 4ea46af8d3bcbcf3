//! What the program prints of a script, of a captured one too, and what it explains after one, as definitions (specs/); and the devices that it
//! can be asked for.
#![tactic(auto)]

/// The device that answers a script.
#[derive(Clone, Copy, Debug, PartialEq, Eq)]
pub enum Device {
    I8255A,
    I82C55A,
    I8355,
}
