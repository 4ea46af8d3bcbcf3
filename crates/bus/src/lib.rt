//! The bus that a device shares with others: the events on it, what runs on it, which events are refused, and what a device is.
#![tactic(auto)]

pub mod devices;
pub mod events;
pub mod kinds;
pub mod refusals;

/// What runs on the bus: nothing, a read at an address, or a write of a byte to one.
#[derive(Clone, Copy, Debug, PartialEq, Eq)]
pub enum Phase {
    Idle,
    Reading(u8),
    Writing(u8, u8),
}

/// The limits of a device: how many addresses there are, from 0 on, how many of them, from 0 on, can be read, and how many ports have
/// levels outside.
#[derive(Clone, Copy, Debug, PartialEq, Eq)]
pub struct Limits {
    pub addresses: u8,
    pub readable: u8,
    pub ports: u8,
}

/// The levels of a port's eight pins, and a one for each pin that the device drives. By default no pin is high, and none is driven.
#[derive(Clone, Copy, Debug, PartialEq, Eq, Default)]
pub struct Pins {
    pub levels: u8,
    pub driven: u8,
}
