//! The summary of port C's pins by mode. Each cell is gathered from what the lookup answers for every word that it speaks of; which
//! words those are is plain arithmetic here, apart from the model's own decoding.
use control::Role;
use std::{fmt, io};

// The sheet's columns: mode 0 in and out, mode 1 in and out, mode 2.
#[derive(Clone, Copy, Debug, PartialEq, Eq)]
enum Column {
    Mode0In,
    Mode0Out,
    Mode1In,
    Mode1Out,
    Mode2,
}

const COLUMNS: [Column; 5] = [
    Column::Mode0In,
    Column::Mode0Out,
    Column::Mode1In,
    Column::Mode1Out,
    Column::Mode2,
];

impl Column {
    // The column for a group in mode 0 or 1, by the direction of its port and of the pin's half of port C.
    fn of_mode(mode: u8, input: bool, half: bool) -> Column {
        match (mode, input, half) {
            (0, _, true) => Column::Mode0In,
            (0, _, false) => Column::Mode0Out,
            (_, true, _) => Column::Mode1In,
            (_, false, _) => Column::Mode1Out,
        }
    }

    // The column for the pin's group under the word.
    fn of(word: u8, pin: u8) -> Column {
        let half = half_is_input(word, pin);
        if pin < 3 {
            return Column::of_mode(word / 4 % 2, word / 2 % 2 == 1, half);
        }
        if word / 64 % 2 == 1 {
            return Column::Mode2;
        }
        Column::of_mode(word / 32 % 2, word / 16 % 2 == 1, half)
    }

    // Group B has no mode 2: in that column the sheet shows its pins as group A's mode 2 leaves them.
    fn speaks_of(self, word: u8, pin: u8) -> bool {
        if self == Column::Mode2 && pin < 3 {
            return word / 64 % 2 == 1 && word / 4 % 2 == 0;
        }
        Column::of(word, pin) == self
    }
}

fn half_is_input(word: u8, pin: u8) -> bool {
    if pin < 4 {
        word % 2 == 1
    } else {
        word / 8 % 2 == 1
    }
}

// What a cell says: a role in a handshake, a free pin, or answers that do not agree.
#[derive(Clone, Copy, Debug, PartialEq, Eq)]
enum Entry {
    Role(Role),
    Free,
    Mixed,
}

impl Entry {
    // The answer for a word as the sheet would name it. A free pin has to follow the direction of its half.
    fn of(word: u8, pin: u8) -> Entry {
        let free = if half_is_input(word, pin) {
            Role::Input
        } else {
            Role::Output
        };
        match Role::of(word, pin) {
            Some(role) if role == free => Entry::Free,
            Some(Role::Input | Role::Output) | None => Entry::Mixed,
            Some(role) => Entry::Role(role),
        }
    }

    fn joined(self, next: Entry) -> Entry {
        if self == next { next } else { Entry::Mixed }
    }
}

// A cell of a column: what all the words say of which the column speaks, if there are any.
#[derive(Clone, Copy, Debug)]
struct Cell {
    column: Column,
    entry: Option<Entry>,
}

impl Cell {
    fn of(column: Column, pin: u8) -> Cell {
        let entry = (128..=255)
            .filter(|word| column.speaks_of(*word, pin))
            .map(|word| Entry::of(word, pin))
            .reduce(Entry::joined);
        Cell { column, entry }
    }
}

impl fmt::Display for Cell {
    fn fmt<W: fmt::Write>(&self, f: &mut fmt::Formatter<W>) -> fmt::Result {
        f.write_str(match (self.entry, self.column) {
            (Some(Entry::Role(Role::Intr)), _) => "INTR",
            (Some(Entry::Role(Role::Ibf)), _) => "IBF",
            (Some(Entry::Role(Role::Obf)), _) => "OBF",
            (Some(Entry::Role(Role::Stb)), _) => "STB",
            (Some(Entry::Role(Role::Ack)), _) => "ACK",
            (Some(Entry::Free), Column::Mode0In) => "IN",
            (Some(Entry::Free), Column::Mode0Out) => "OUT",
            (Some(Entry::Free), _) => "I/O",
            _ => "?",
        })
    }
}

fn row(rt: &impl Print, pin: u8) -> io::Result<()> {
    print!(rt; "PC{pin}")?;
    for column in COLUMNS {
        print!(rt; "\t{}", Cell::of(column, pin))?;
    }
    println!(rt)
}

/// Prints the summary under its headings.
pub(super) fn all(rt: &impl Print) -> io::Result<()> {
    println!(rt;
        "MODE DEFINITION SUMMARY\n\tMODE 0 IN\tMODE 0 OUT\tMODE 1 IN\tMODE 1 OUT\tMODE 2"
    )?;
    for pin in 0..8 {
        row(rt, pin)?;
    }
    Ok(())
}
