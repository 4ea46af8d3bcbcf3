//! Theorems about the 8355: in every state, and by an account of what a history of it shows, worked out from the events alone. A function here
//! does nothing: its contract is the theorem.
#![tactic(auto)]

ghost use Rattle.std.specs.Prelude.{◌≡◌, List, ℕ, ◌*◌, ◌<◌, length, map, sum};
ghost use Rattle.bus.specs.Event.{Event};
ghost use Rattle.bus.specs.Facts.{Facts};
ghost use Rattle.bus.specs.declared.Phase.TheVariants.{Idle, Reading, Writing};
ghost use Rattle.text.specs.Quoted.{answered, listed};
ghost use Rattle.script.specs.Answers.{by_device, answers_of};
ghost use Rattle.i8355.specs.declared.Chip8355.{Chip8355};
ghost use Rattle.i8355.specs.State.{power_up};
ghost use Rattle.i8355.specs.Views.{pins_of};
ghost use Rattle.i8355.specs.Step.{device, step_of};
ghost use Rattle.laws8355.specs.Places.{places, ends_with};
ghost use Rattle.laws8355.specs.Account.{opened};
ghost use Rattle.laws8355.specs.Promise.{account_of, Accounted};
ghost use Rattle.laws8355.specs.Sheet.{Written, InEveryState};
ghost use Rattle.laws8355.specs.Lasts.{Lasts};
ghost use Rattle.laws8355.specs.Script.{AnsweredBy, RunsFromPowerUp, texts};

/// The facts about cycles hold of the 8355 in every state, as they do of every device on the bus: which number an event has, that a refusal
/// changes nothing, that operands which the kind lacks are not looked at, which cycle runs, and which event began it. There are four addresses,
/// of which two can be read, and two ports with levels.
#[tactic(auto, using(crate::proofs::Cycles::facts))]
pub fn facts_about_cycles_hold()
    ensures { (c : Chip8355) → Facts device places c }
{}

/// Over every history, from power-up and from any state, all that can be seen of the 8355 is what the account of the events says: the number and
/// the byte of every event, and of every port the levels and which pins are driven.
#[tactic(auto, using(crate::proofs::Accounted::account, crate::proofs::Accounted::account_from))]
pub fn histories_show_what_the_account_says()
    ensures power_up { (es : List Event) → Accounted power_up opened es }
    ensures any_state { (c : Chip8355) (es : List Event) → Accounted c (account_of c) es }
{}

/// What whole writes on an idle bus do to each pin of both ports, by the document's own sentences. A one in the direction register makes the pin
/// an output, and a zero an input. Every bit of a port that is written is kept, and shows once its pin is an output. A reset keeps it.
#[tactic(auto, using(crate::proofs::Written::written))]
pub fn writes_do_as_the_document_says()
    ensures { (c : Chip8355) (p n : ℕ) → p < 2 → n < 8 → c.phase ≡ Idle → Written c p n }
{}

/// What is so of each pin of both ports in every state, by the document's own sentences. A read answers what the pins show. They move
/// only with the end of a write to the port or to its direction, a reset, and levels on the port. The directions cannot be read. A reset makes
/// every pin an input.
pub fn pins_do_as_the_document_says()
    ensures { (c : Chip8355) (p n : ℕ) → p < 2 → n < 8 → InEveryState c p n }
{}

/// The byte last written to a port is what its outputs show, whatever resets, directions, levels and reads come later. The levels last put on a
/// port are what its inputs show.
#[tactic(auto, using(crate::proofs::Lasts::lasts))]
pub fn written_bytes_and_levels_last()
    ensures { (c : Chip8355) (p n : ℕ) (es : List Event) → p < 2 → n < 8 → Lasts c p n es }
{}

/// In a state that no history reaches, a cycle may run at a place that there is not. It ends all the same, and that is all: the end is accepted,
/// the bus is idle, and both ports stay as they are. So does a read at every place.
#[tactic(auto, using(crate::proofs::Unreached::every_read_ends, crate::proofs::Unreached::write_to_no_address_ends))]
pub fn cycles_at_no_place_end()
    ensures read { (c : Chip8355) (p x d : ℕ) → c.phase ≡ Reading p → step_of c 2 x d ≡ ends_with c.ports }
    ensures write { (c : Chip8355) (a b x d : ℕ) → c.phase ≡ Writing a b → 3 < a → step_of c 2 x d ≡ ends_with c.ports }
{}

/// The answers to every script of the 8355 are those of the account of its history, with 00 for port C, which there is not. Four scripts have
/// the answers that are listed beside them, with fifteen lines of eleven bytes in all.
#[tactic(auto, using(crate::proofs::Script::answered_by, crate::proofs::Script::texts_answered))]
pub fn scripts_are_answered_by_the_account()
    ensures account { (text : List ℕ) → AnsweredBy text }
    ensures examples { answered (answers_of (by_device device pins_of) power_up) texts ≡ listed texts }
    ensures scripts { length texts ≡ 4 }
    ensures lines { sum (map length (listed texts)) ≡ 15 * 11 }
{}

/// A run that the library begins at power-up leaves in the output the lines of the account of the text's history, and behind them the bytes that
/// stood there. One that is refused leaves every byte. It gives back 6, 7, or 0 and the number of lines, by the length of the text and eleven
/// bytes for each line.
#[tactic(auto, using(crate::proofs::AtPowerUp::runs_from_power_up))]
pub fn runs_begin_at_power_up()
    ensures { (text out : List ℕ) → RunsFromPowerUp text out }
{}
