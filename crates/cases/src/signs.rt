// The signs in the text of the cases, followed byte by byte:
//
//     <030309>   runs an event: a kind and two operands, in six hexadecimal digits
//     %A %a      the levels and the driven pins of port A; so for B and C, and with D and d for a port that there is not
//     %n %y      the number and the byte of the last event
//     !P !N !Q   another device: an 8255A and an 82C55A at power-up with every line high, and an 8355 at power-up
//     !R         by any other letter, the same device in another state: as states.rt, states_8355.rt and phases.rt have it
//
// Of the 8255A and the 82C55A alone, where the 8355 has a '-':
//
//     %r %w      a read of port C, and the stored mode word
//     %v         the edition
//     %0 to %3   a channel and its tallies: A in, A out, B in, B out
//     %i %j %k   what is said of the INTR of group A, of B, and of a group that there is not
//
// Of the 8355 alone, where the others have a '-':
//
//     %E %e      the latch and the direction of port A as they are stored; so with F and f for B
//
// Beside the device there is a rack of cards, at first of none, with signs of its own:
//
//     [000,778,]     builds a rack: a comma stands behind each base
//     {0307785A00}   runs an event: a kind in two digits, its first operand in four, its second and third in two each
//     @1             looks at a place, from 0
//     $n $y          the number, in decimal, and the byte of the last event; or the number of the building
//     $A             by any other letter, what the same letter shows of an 8255A, of the card at the place that is looked at
use super::devices::Last;
use super::racks::Held;
use std::io;

// A sign that is not complete yet, with its digits so far, if it has any.
#[derive(Clone, Copy)]
enum Sign {
    Event(u64), // <
    Field, // %
    Other, // !
    Base(u64), // [
    RackEvent(u64), // {
    Place, // @
    RackField, // $
}

// The digits with one more, of which the last ten count. A comma begins new ones. A number and no list of digits: no sign has more than ten, and
// what it needs is the bytes of the number. A byte that is no digit counts as one too, by the low half of its code, and from A on by nine more, so
// that no text is refused.
fn with_digit(digits: u64, code: u8) -> u64 {
    if code == b',' {
        return 0;
    }
    let digit = if code < b'A' {
        code % 16
    } else {
        code % 16 + 9
    };
    digits % 0x1000000000 * 16 + u64::from(digit)
}

impl Sign {
    // The sign that a byte opens, if it opens one.
    fn opened_by(code: u8) -> Option<Sign> {
        match code {
            b'<' => Some(Sign::Event(0)),
            b'%' => Some(Sign::Field),
            b'!' => Some(Sign::Other),
            b'[' => Some(Sign::Base(0)),
            b'{' => Some(Sign::RackEvent(0)),
            b'@' => Some(Sign::Place),
            b'$' => Some(Sign::RackField),
            _ => None,
        }
    }

    // What stands open behind a byte of the sign.
    fn after(self, code: u8) -> Option<Sign> {
        match (self, code) {
            (Sign::Event(_), b'>') | (Sign::Base(_), b']') | (Sign::RackEvent(_), b'}') => None,
            (Sign::Event(digits), _) => Some(Sign::Event(with_digit(digits, code))),
            (Sign::Base(digits), _) => Some(Sign::Base(with_digit(digits, code))),
            (Sign::RackEvent(digits), _) => Some(Sign::RackEvent(with_digit(digits, code))),
            (Sign::Field | Sign::Other | Sign::Place | Sign::RackField, _) => None,
        }
    }
}

// The device and the rack that the cases are at.
#[derive(Drop)]
struct Cases {
    last: Last,
    held: Held,
}

impl Cases {
    // Does what a byte of a sign is for.
    fn act(&mut self, rt: &impl Print, sign: Sign, code: u8) -> io::Result<()> {
        match sign {
            Sign::Event(digits) if code == b'>' => self.last.event(digits),
            Sign::Field => self.last.field(rt, code)?,
            Sign::Other => self.last.put(code),
            Sign::Base(digits) => self.held.base(digits, code)?,
            Sign::RackEvent(digits) if code == b'}' => self.held.event(digits),
            Sign::Place => self.held.look_at(code),
            Sign::RackField => self.held.field(rt, code)?,
            Sign::Event(_) | Sign::RackEvent(_) => {}
        }
        Ok(())
    }
}

// A plain byte opens a sign, or is copied out.
fn opened(rt: &impl Print, code: u8) -> io::Result<Option<Sign>> {
    let sign = Sign::opened_by(code);
    if sign.is_none() {
        rt.write_all(&[code])?;
    }
    Ok(sign)
}

pub(super) fn follow(rt: &(impl Print + AllocGlobal), text: &[u8]) -> io::Result<()> {
    let mut cases = Cases {
        last: Last::at_power_up(),
        held: Held::new(rt.alloc()),
    };
    let mut open: Option<Sign> = None;
    for code in text {
        open = match open {
            Some(sign) => {
                cases.act(rt, sign, *code)?;
                sign.after(*code)
            }
            None => opened(rt, *code)?,
        };
    }
    Ok(())
}
