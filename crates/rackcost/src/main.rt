//! Lets a chip alone, or the last card of a full rack, answer a scale and a printer for as many rounds as are asked for, so that the
//! instructions of either can be counted (bench/measure). With no argument each has three rounds.
#![tactic(auto)]

mod alone;
mod in_a_rack;
mod round;

use round::Handed;
use std::io;
use std::rt::Env;

fn tell(rt: &impl Print, who: &str, handed: Handed) -> io::Result<()> {
    println!(rt;
        "{who}: {} digits handed over, and {} signs for the ticket",
        handed.digits, handed.signs
    )
}

fn on_a_chip(rt: &impl Print, rounds: usize) -> io::Result<()> {
    tell(rt, "a chip alone", alone::rounds(rounds))
}

fn on_a_card(rt: &impl Print, rounds: usize) -> io::Result<()> {
    match in_a_rack::rounds(rounds) {
        Some(handed) => tell(rt, "a card of a full rack", handed),
        None => println!(rt; "the bases make no rack"),
    }
}

// An argument, which is as none where there is no room for it.
fn word<'a>(rt: &impl Env, at: usize, room: &'a mut [u8]) -> &'a [u8] {
    match rt.arg(at, room) {
        Ok(length) => &room[..length],
        Err(_) => &[],
    }
}

// The rounds that an argument asks for, in decimal. A byte that is no digit counts as one by the low half of its code, so that no word is refused.
// Of more than six digits the first are dropped, so that the number fits.
fn count(word: &[u8]) -> usize {
    word.iter().fold(0, |count, digit| {
        count % 100_000 * 10 + usize::from(digit % 16)
    })
}

// The first word names one of the two, the second the rounds.
fn main(rt: HostRuntime) -> io::Result<()> {
    let rounds = count(word(&rt, 2, &mut [0; 4]));
    match word(&rt, 1, &mut [0; 4]) {
        b"chip" => on_a_chip(&rt, rounds),
        b"rack" => on_a_card(&rt, rounds),
        _ => {
            on_a_chip(&rt, 3)?;
            on_a_card(&rt, 3)
        }
    }
}
