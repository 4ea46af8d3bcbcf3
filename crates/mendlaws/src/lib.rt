//! Theorems about the mending of captured scripts. A function here does nothing: its contract is the theorem.
#![tactic(auto)]

ghost use Rattle.std.specs.Prelude.{◌≡◌, ◌↔◌, ◌%◌, true, List, ℕ, length, Result};
ghost use Rattle.bus.specs.Device.{Device};
ghost use Rattle.bus.specs.Event.{Event};
ghost use Rattle.text.specs.Lines.{Line, ended, rest, lines_of};
ghost use Rattle.text.specs.Frames.{is_frame, frame_of, frame_in};
ghost use Rattle.text.specs.History.{event_of};
ghost use Rattle.mend.specs.declared.Mended.{Mended as Lengths};
ghost use Rattle.mend.specs.declared.MendRefusal.{MendRefusal};
ghost use Rattle.mend.specs.Mend.{mend_told, outcome_of};
ghost use Rattle.mendlaws.specs.Says.{Says, SaysAnEvent};
ghost use Rattle.mendlaws.specs.Others.{SaysNothing, of_no_kind, RefusesWith1};
ghost use Rattle.mendlaws.specs.Becomes.{AllBecome, BecomeOneThing};
ghost use Rattle.mendlaws.specs.Steps.{MeansTheSame};
ghost use Rattle.mendlaws.specs.Reasons.{HasItsReason, unfit_lines, reasons_of, reasons_beside};
ghost use Rattle.mendlaws.specs.Promise.{answer_of, Stays, CleanWithRoom, Mended, RefusedWith, Numbered, Tells};
ghost use Rattle.mendlaws.specs.Longest.{lacks_one_lf};
ghost use Rattle.mendlaws.specs.Example.{a_capture, all_of, given, said};

/// Lines become one thing and one alone: a sign each, a clean script, and the events that it says.
pub fn lines_become_one_thing()
    ensures { (ls : List Line) → BecomeOneThing ls }
{}

/// A line is a frame exactly where it says an event in plain codes, and it is read as that event.
pub fn frames_say_events()
    ensures frame { (bytes : List ℕ) → (is_frame bytes ≡ true) ↔ SaysAnEvent bytes }
    ensures event { (bytes : List ℕ) (e : Event) → Says bytes e → event_of (frame_of bytes) ≡ e }
{}

/// A line that says no event in plain codes is an event of no kind, and so is a rest without LF, however well it is formed. Every device, in every
/// state, refuses that event with 1: it answers 00, and stays as it was.
pub fn other_lines_are_of_no_kind<S, R>()
    ensures line { (bytes : List ℕ)
        → SaysNothing bytes → event_of (frame_in (ended bytes)) ≡ of_no_kind }
    ensures rest { (bytes : List ℕ) → event_of (frame_in (rest bytes)) ≡ of_no_kind }
    ensures refused { (dev : Device S R) (s : S) → RefusesWith1 dev s of_no_kind }
{}

/// A kept or mended line means the same frame as before: the one that the line is once a rest has its LF, one CR is dropped and digits are
/// raised. So it is mended to these bytes and to no others, and the clean script has them, with LF. Any other line is no frame even then.
pub fn fit_lines_mean_the_same()
    ensures { (l : Line) → MeansTheSame l }
{}

/// Each unfit line has one reason, and no other line has any: a code is no digit once small digits are raised; or each is one, and the first two
/// are the number of no kind; or each is one, and there is one alone, or there are more than the kind and its operands have, or fewer. Nine
/// lines are computed, with the reason of each.
pub fn unfit_lines_have_a_reason()
    ensures reason { (l : Line) → HasItsReason l }
    ensures examples { reasons_of unfit_lines ≡ reasons_beside unfit_lines }
    ensures nine { length unfit_lines ≡ 9 }
{}

/// The number of every call: 6 where the text or its clean form is longer than 4,096 bytes, then 7 where an output is too short, and else 0. A
/// refused call answers its number alone, and changes neither output. The clean form has one byte more than the text at most.
pub fn calls_are_numbered()
    ensures { (text clean report signs script : List ℕ) (es : List Event) → AllBecome (lines_of text) signs script es → Numbered text clean report script signs }
{}

/// A text that is short enough may have a clean form that is too long: this one of 4,096 bytes lacks the last LF alone, and is refused with 6.
pub fn clean_forms_may_be_too_long()
    ensures short { length lacks_one_lf ≡ 4096 }
    ensures refused { (clean report : List ℕ) → RefusedWith 6 lacks_one_lf clean report }
{}

/// The call of Rattle tells the same as the call for C: its two lengths, or the number of its refusal.
pub fn both_calls_tell_the_same()
    ensures { (text clean report : List ℕ) (r : Result Lengths MendRefusal) → mend_told r ≡ outcome_of text (length clean) (length report) → Tells text clean report r }
{}

/// An accepted call writes the clean script, and one sign for each line of the text; what stood behind both stays. No line of the clean script
/// is malformed. Its answers are those to the frames of the text, in order. Mended again, it stays as it is.
pub fn accepted_calls_mend()
    ensures { (text clean report : List ℕ) → answer_of text clean report % 256 ≡ 0 → Mended text clean report }
{}

/// A text of at most 4,096 bytes, of which no line is malformed, comes out equal where both outputs have room, and each of its lines is kept.
pub fn clean_texts_stay()
    ensures { (text clean report : List ℕ) (es : List Event) → CleanWithRoom text clean report es → Stays text clean report }
{}

/// The example has fifteen lines, and each reason to keep, to mend and to leave out a line: the call gives the clean script and the signs that stand
/// beside it.
pub fn example_is_mended()
    ensures gives { given (all_of a_capture) ≡ said }
    ensures fifteen { length a_capture ≡ 15 }
{}
