//! An account of all that can be seen of a chip, worked out from the events alone: theorems that the chip keeps to it, and what follows. A
//! function here does nothing: its contract is the theorem.
#![tactic(auto)]

ghost use Rattle.std.specs.Prelude.{◌≡◌, List, [], ◌∷◌, ◌++◌, ℕ, ◌*◌, length, take, map, sum};
ghost use Rattle.bus.specs.Event.{Event};
ghost use Rattle.control.specs.declared.Group.{Group};
ghost use Rattle.chip.specs.declared.channel.Side.{Side};
ghost use Rattle.chip.specs.declared.channel.Fill.TheVariants.{Empty, Fetching};
ghost use Rattle.chip.specs.declared.Edition.{Edition};
ghost use Rattle.chip.specs.declared.Chip.{Chip};
ghost use Rattle.chip.specs.declared.Levels.{Levels};
ghost use Rattle.chip.specs.State.{all_high, power_up_as};
ghost use Rattle.chip.specs.Pins.{pins_of};
ghost use Rattle.chip.specs.Step.{device};
ghost use Rattle.text.specs.Lines.{lf};
ghost use Rattle.text.specs.Quoted.{answered, listed};
ghost use Rattle.script.specs.Answers.{Answerer, by_device, answers_of};
ghost use Rattle.script.specs.Run.{room_for, accepted_run, ran_of, width_of};
ghost use Rattle.fates.specs.Surroundings.{at_power_up};
ghost use Rattle.fates.specs.Bytes.{bytes_of};
ghost use Rattle.fates.specs.Promise.{surroundings_of, all_bytes};
ghost use Rattle.account.specs.Account.{Account, opened};
ghost use Rattle.account.specs.Promise.{with_bit7, surroundings_here, account_of, Accounted, LooksUp};
ghost use Rattle.account.specs.Holds.{HoldsTrue, HoldsFromPowerUp, WriteRuns, PortTakes};
ghost use Rattle.account.specs.ReadBack.{ReadsBack};
ghost use Rattle.account.specs.Script.{AnsweredBy, RunNumbered};
ghost use Rattle.account.specs.Texts.{texts};
ghost use Rattle.account.specs.AnyDevice.{LeavesAll, RefusedByLength, MayRun, WritesAnswers, up_to_lf};
ghost use Rattle.account.specs.AtPowerUp.{RunsFromPowerUp};
ghost use Rattle.account.specs.Unreached.{with_condition, with_word, SameSight};
ghost use Rattle.account.specs.Decided.{EachDecided};

/// Over every history, from every power-up and from any chip, all that can be seen of the chip is what the account says: the number and the byte
/// of whatever event comes next, the levels and the driven pins of each port, what a read answers, both INTRs, and why one is low. The answers
/// to every script are the account's.
pub fn chip_shows_what_the_account_says()
    ensures power_up { (ed : Edition) (l : Levels) (es : List Event) → Accounted (power_up_as ed l) (opened ed l) es }
    ensures any_chip { (c : Chip) (es : List Event) → Accounted c (account_of c) es }
    ensures script { (ed : Edition) (text : List ℕ) → AnsweredBy ed text }
{}

/// The account has what the chip holds, over every history, from every power-up and from any chip: the surroundings, a bit for each pin, both latches
/// of ports A and B, the flags and the halves of INTR. By the account alone, the end of a write to an input of mode 0 or 1 leaves both latches of that
/// port. The end of a write to any other port puts the byte in its output latch, and leaves its input latch.
pub fn account_has_what_the_chip_holds()
    ensures power_up { (ed : Edition) (l : Levels) (es : List Event) → HoldsFromPowerUp ed l es }
    ensures any_chip { (c : Chip) (es : List Event) → HoldsTrue c (account_of c) es }
    ensures writes { (a : Account) (g : Group) (b x d : ℕ) → WriteRuns a g b → PortTakes a g b x d }
{}

/// A read of control, where it is accepted, answers the last mode word that the events brought, over every history from every power-up and from
/// any chip. Where they brought none it is that of the beginning, 9B at power-up.
pub fn mode_words_are_read_back()
    ensures power_up { (ed : Edition) (l : Levels) (es : List Event) → ReadsBack (power_up_as ed l) (at_power_up ed l) es }
    ensures any_chip { (c : Chip) (es : List Event) → ReadsBack c (surroundings_here c) es }
{}

/// Each byte of each channel has the fate of the event that decided it, over every history from every power-up, and from every chip. It was
/// handed over where a read of the input's port began, or ACK fell; overwritten where STB fell, or a write to the output's port ended; swallowed
/// where a read of the input's port ended; cleared by a reset or the end of a mode word; struck by bit set/reset that reset IBF or set OBF. A
/// byte that still waits has the place behind the last event.
pub fn fates_come_of_their_events()
    ensures power_up { (g : Group) (s : Side) (ed : Edition) (l : Levels) (es : List Event) → EachDecided g s (at_power_up ed l) es (bytes_of g s ed l es) }
    ensures any_chip { (g : Group) (s : Side) (c : Chip) (es : List Event) → EachDecided g s (surroundings_of c) es (all_bytes g s c es) }
{}

/// The lookup of a role answers by the sheet's mode definition summary: the number of the cell, and 255 for a word below 128 and for a pin above
/// 7.
pub fn lookups_answer_by_the_summary()
    ensures { (w n : ℕ) → LooksUp w n }
{}

/// In states that no history reaches an output marked fetching counts as empty, and bit 7 of the mode word as set: nothing that is seen, over
/// any history, tells the two apart, and no tally does.
pub fn unreached_marks_are_unseen()
    ensures mark { (c : Chip) (g : Group) (es : List Event) → SameSight (with_condition c g Fetching) (with_condition c g Empty) es }
    ensures bit_7 { (c : Chip) (w : ℕ) (es : List Event) → SameSight (with_word c w) (with_word c (with_bit7 w)) es }
{}

/// What a run of a text gives back, in plain words: 6 for a text of more than 4,096 bytes; else 7 where the output is shorter than eleven bytes
/// for each line; and else 0 and the number of lines.
pub fn runs_are_numbered()
    ensures { (text : List ℕ) (room : ℕ) → RunNumbered text room }
{}

/// Whatever device answers, a run of a text of more than 4,096 bytes is refused with 6, and one of any other with 7 if the output is shorter than
/// the answers: for each line five bytes, and six more for each card. Both leave every byte of the output, and the device. An empty text has no
/// lines: it is accepted whatever the room, and leaves them too.
pub fn refused_and_empty_runs_leave_all<S>()
    ensures refused { (a : Answerer S) (s : S) (text out : List ℕ) → RefusedByLength a s text out }
    ensures no_lines { (a : Answerer S) (s : S) (out : List ℕ) → ran_of (width_of a s) [] (length out) ≡ accepted_run 0 }
    ensures empty { (a : Answerer S) (s : S) (out : List ℕ) → LeavesAll a s [] out }
{}

/// Whatever device answers, a text of at most 4,096 bytes runs if the output has room for the answers, and the run counts every line. The output
/// then begins with the answers, and every byte behind them is as it was. The device is the one that the lines leave.
pub fn accepted_runs_write_the_answers<S>()
    ensures { (a : Answerer S) (s : S) (text out : List ℕ) → MayRun a s text out → WritesAnswers a s text out }
{}

/// A run that the library begins at power-up, on a chip of either edition, leaves in the output the lines of the account of the text's history,
/// from a power-up with every line high, and behind them the bytes that stood there. One that is refused leaves every byte. It gives back 6, 7,
/// or 0 and the number of lines, by the length of the text and eleven bytes for each line.
#[tactic(auto, using(crate::proofs::AtPowerUp::runs_from_power_up))]
pub fn runs_begin_at_power_up()
    ensures { (ed : Edition) (text out : List ℕ) → RunsFromPowerUp ed text out }
{}

/// Whatever device answers, the answers to a text are of one width for each line; and those up to an LF are the same whatever follows.
pub fn answers_stand_line_by_line<S>()
    ensures width { (a : Answerer S) (s : S) (text : List ℕ) → length (answers_of a s text) ≡ room_for (width_of a s) text }
    ensures prefix { (a : Answerer S) (s : S) (text later : List ℕ) → take (room_for (width_of a s) (up_to_lf text)) (answers_of a s (text ++ lf ∷ later)) ≡ answers_of a s (up_to_lf text) }
{}

/// The rules' whole case and the other scripts that they list, which say what a line must be to be a frame, have the answers that stand beside
/// them, for a chip of either edition. They are nine scripts, with twenty-seven lines of eleven bytes in answer.
pub fn texts_have_these_answers()
    ensures answers { (ed : Edition) → answered (answers_of (by_device device pins_of) (power_up_as ed all_high)) (texts ed) ≡ listed (texts ed) }
    ensures scripts { (ed : Edition) → length (texts ed) ≡ 9 }
    ensures lines { (ed : Edition) → sum (map length (listed (texts ed))) ≡ 27 * 11 }
{}
