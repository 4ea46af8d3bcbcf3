// Arbitrary states of the proved model, most of which no history reaches: every field is drawn by itself.
use super::random::{byte, far, next};
use bus::Phase;
use chip::channel::{Channel, Fill, Tally};
use chip::{Chip, Core, Edition, Enables, Port, PortC};

// A tally: any, or in one of two a value that a few events bring back to 0.
fn tally(number: u64) -> u16 {
    let any = (number >> 8) % 65536;
    if number % 2 == 0 {
        return (65535 - any % 3) as u16;
    }
    any as u16
}

// A channel in any condition, whether or not a mode word strobes it; an output may be fetching too.
fn channel(seed: u64) -> Channel {
    let one = next(seed);
    let two = next(one);
    let three = next(two);
    let four = next(three);
    let five = next(four);
    let six = next(five);
    let fill = match seed % 3 {
        0 => Fill::Empty,
        1 => Fill::Waiting,
        _ => Fill::Fetching,
    };
    Channel {
        fill,
        latch: byte(seed >> 32),
        tally: Tally {
            offered: tally(seed),
            handed: tally(one),
            overwritten: tally(two),
            swallowed: tally(three),
            cleared: tally(four),
            planted: tally(five),
            struck: tally(six),
        },
    }
}

fn port(seed: u64) -> Port {
    Port {
        input: channel(seed),
        output: channel(far(seed)),
        outside: byte(seed >> 40),
    }
}

// No cycle, or one at any address at all; in one of two at an address that there is, up to the last one, whose bits are all ones. Another number
// decides which of the three phases it is.
pub(super) fn phase(number: u64, which: u64, last: u8) -> Phase {
    let any = byte(number >> 8);
    let there = if number % 2 == 0 { any & last } else { any };
    match which % 3 {
        0 => Phase::Idle,
        1 => Phase::Reading(there),
        _ => Phase::Writing(there, byte(number >> 16)),
    }
}

// Either edition, by the lowest bit of a number.
pub(super) fn edition(number: u64) -> Edition {
    if number % 2 == 0 {
        return Edition::Older;
    }
    Edition::Newer
}

// The levels of port C are all high in one of two, so that pins can fall. A mode word may lack its bit 7.
pub(super) fn arbitrary(seed: u64) -> Chip {
    let number = next(seed);
    let ports = next(number);
    let high = if number % 2 == 0 { 0xff } else { 0 };
    let core = Core {
        word: byte(number >> 48),
        a: port(ports),
        b: port(far(far(ports))),
        c: PortC {
            latch: byte(number >> 40),
            outside: byte(number >> 32) | high,
        },
        inte: Enables {
            input: number & 2 == 0,
            output: number & 4 == 0,
            b: number & 8 == 0,
        },
    };
    Chip {
        phase: phase(number >> 4, number >> 6, chip::CONTROL),
        edition: edition(number >> 56),
        core,
    }
}
