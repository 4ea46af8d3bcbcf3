//! What is promised of the chip in every state. A function here does nothing: its contract is the promise, a theorem about the definitions that
//! the chip's contracts name.
#![tactic(auto)]

ghost use Rattle.std.specs.Prelude.{◌≡◌, ◌↔◌, Bool, true, false, cond, ◌++◌, ℕ, ◌<◌, ltb, length, map};
ghost use Rattle.bits.specs.Bit.{bit_of};
ghost use Rattle.bus.specs.Kinds.{no_kind};
ghost use Rattle.bus.specs.Histories.{levels, write};
ghost use Rattle.bus.specs.Refusals.{limits_of, number_of};
ghost use Rattle.bus.specs.Facts.{Facts};
ghost use Rattle.bus.specs.declared.Phase.{Phase};
ghost use Rattle.bus.specs.declared.Phase.TheVariants.{Idle, Reading, Writing};
ghost use Rattle.control.specs.declared.Group.{Group};
ghost use Rattle.control.specs.declared.Group.TheVariants.{A, B};
ghost use Rattle.control.specs.Mode.{mode_of, input_of, directions_of};
ghost use Rattle.control.specs.Role.{role_of};
ghost use Rattle.chip.specs.declared.channel.Side.{Side};
ghost use Rattle.chip.specs.declared.channel.Side.TheVariants.{Input, Output};
ghost use Rattle.chip.specs.declared.Edition.{Edition};
ghost use Rattle.chip.specs.declared.Edition.TheVariants.{Newer};
ghost use Rattle.chip.specs.declared.Chip.{Chip};
ghost use Rattle.chip.specs.declared.Levels.{Levels};
ghost use Rattle.chip.specs.State.{power_up_as, channel_of};
ghost use Rattle.chip.specs.Handshakes.{own_address, strobed, line_pin, flag_pin, enable_of, running};
ghost use Rattle.chip.specs.Status.{intr_of};
ghost use Rattle.chip.specs.Reasons.{reason_of, explained_in, explained_of, is_high, says_high, numbers_of};
ghost use Rattle.chip.specs.Reads.{read_of};
ghost use Rattle.chip.specs.Pins.{pins_of};
ghost use Rattle.chip.specs.Step.{limits, device, accepted, refused, step_of};
ghost use Rattle.laws.specs.Seen.{pin, told, driven, puts};
ghost use Rattle.laws.specs.Ends.{CycleEnds, EndsNowhere};
ghost use Rattle.laws.specs.PowerUp.{AsNamed, Starts};
ghost use Rattle.laws.specs.Anew.{Anew, Obeyed, AllInputs};
ghost use Rattle.laws.specs.PlainBits.{mode_by, handshake, into, output_only, input_only, handshake_on, role_by};
ghost use Rattle.laws.specs.Chart.{AsCharted};
ghost use Rattle.laws.specs.ChannelPins.{PinsUsed, PinsShown, FreePin};
ghost use Rattle.laws.specs.Ports.{Gives, Takes, PortWritten, GivesAndTakes};
ghost use Rattle.laws.specs.PortC.{LinesWritten, LinesHeld, driven_by, LineShown};
ghost use Rattle.laws.specs.StatusWord.{read_by_status, pins_by_status};
ghost use Rattle.laws.specs.OnePin.{PinPut};
ghost use Rattle.laws.specs.Forcing.{Forced};
ghost use Rattle.laws.specs.Enables.{moves_enables, EnablesStay};
ghost use Rattle.laws.specs.Loads.{LatchLoads, LatchStays};
ghost use Rattle.laws.specs.Kept.{KeptByLevels, KeptByEvent, lets_fall, reaches_all};
ghost use Rattle.laws.specs.Flags.{ibf, IbfMoves, ObfMoves};
ghost use Rattle.laws.specs.Halves.{half, IntrInMode1, IntrInMode2, HalfAfter, IntrAfter};
ghost use Rattle.laws.specs.Quiet.{TrueOfGroup, intr_seen, earlier, later};
ghost use Rattle.laws.specs.Altered.{WouldBeHigh};
ghost use Rattle.laws.specs.Editions.{addresses_read, as_edition, given_as, reads_control, ShowsAlike, ControlRead, ControlReadEnds};
ghost use Rattle.laws.specs.OtherModels.{UpperStays};
ghost use Rattle.laws.specs.Exceptions.{own_port, CyclesMeant, EventsMeant, LevelsMeant, FlagMovesMeant, WordsMeant, answers, earlier_ones, later_ones};
ghost use Rattle.laws.specs.Marked.{after, cases, modelled, stated, results_of};
ghost use Rattle.laws.specs.ControlExamples.{examples, model_gives, list_gives};

/// Every event has the number of the first row of the table of refusals that applies, by its place and by what runs on the bus: there are four
/// addresses and three ports, and of the addresses three can be read, or four in the newer edition. A refused event changes nothing and gives
/// 00. Operands that the kind lacks are not looked at. What runs on the bus after a history, and which event began it, follows from the events.
/// A read that is accepted answers what a read there would have answered before. What is no kind is refused with 1.
pub fn events_have_their_numbers()
    ensures facts { (c : Chip) → Facts device (limits_of 4 (addresses_read c.edition) 3) c }
    ensures refusal { (c : Chip) (k x d : ℕ) → ¬ ((step_of c k x d).number ≡ 0) → step_of c k x d ≡ refused c (number_of (limits c.edition) c.phase k x) }
    ensures read_answers { (c : Chip) (x d : ℕ) → (step_of c 1 x d).number ≡ 0 → (step_of c 1 x d).byte ≡ read_of c x }
    ensures not_a_kind { (c : Chip) (k x d : ℕ) → no_kind k ≡ true → step_of c k x d ≡ refused c 1 }
{}

/// One event ends every cycle. It is accepted while any cycle runs, and frees the bus; on an idle bus it is refused with 5, and changes nothing. A
/// read that ends leaves the outputs, and a write that ends leaves the inputs, but for a mode word and for bit set/reset of an input's flag. 04 is no
/// kind, and ends nothing.
pub fn one_event_ends_every_cycle()
    ensures ends { (c : Chip) (x d : ℕ) → CycleEnds c x d }
    ensures idle { (c : Chip) (x d : ℕ) → c.phase ≡ Idle → step_of c 2 x d ≡ refused c 5 }
    ensures no_other { (c : Chip) (x d : ℕ) → step_of c 4 x d ≡ refused c 1 }
{}

/// The end of a write at an address above 3, where there is nothing, frees the bus, and that is all; no history leads there. So it is with the end
/// of a read there, and of any read of port C or of control.
pub fn cycles_nowhere_end_without_effect()
    ensures { (c : Chip) (x d : ℕ) → EndsNowhere c x d }
{}

/// At power-up each port shows the levels that were named for it, and nothing is driven. A reset right after it changes nothing. To name levels
/// is to put them on the ports right after a power-up under any others. A mode word finds the lines as they were named, and no byte.
pub fn power_ups_show_the_levels_named()
    ensures shown { (ed : Edition) (l : Levels) → AsNamed l (power_up_as ed l) }
    ensures reset { (ed : Edition) (l : Levels) (x d : ℕ) → (step_of (power_up_as ed l) 0 x d).state ≡ power_up_as ed l }
    ensures put { (ed : Edition) (k l : Levels) → (after (accepted (power_up_as ed k) 0) (levels 0 l.a ++ levels 1 l.b ++ levels 2 l.c)).state ≡ power_up_as ed l }
    ensures starts { (ed : Edition) (l : Levels) (w : ℕ) → bit_of w 7 ≡ true → Starts l w (after (accepted (power_up_as ed l) 0) (write 3 w)).state }
{}

/// Every mode word, as its write ends, and every reset, which is the word 9B, leaves latches and enables zero and channels empty, and counts the
/// bytes that waited as cleared. The levels outside and the other tallies stay. After a reset every pin is an input, and nothing is driven.
pub fn mode_words_and_resets_make_the_chip_anew()
    ensures mode_word { (c : Chip) (w x d : ℕ) → c.phase ≡ Writing 3 w → bit_of w 7 ≡ true → Obeyed c w (step_of c 2 x d) }
    ensures reset { (c : Chip) (x d : ℕ) → Obeyed c 0x9b (step_of c 0 x d) }
    ensures inputs { (c : Chip) (x d : ℕ) → AllInputs c (step_of c 0 x d).state }
{}

/// What a mode word says, by its single bits, whatever number it is: the mode of each group, the direction of its port, on which sides there is
/// a handshake, and the role of each pin of port C.
pub fn mode_words_are_read_by_plain_bits()
    ensures mode { (w : ℕ) (g : Group) → mode_of w g ≡ mode_by w g }
    ensures direction { (w : ℕ) (g : Group) → input_of w g ≡ into w g }
    ensures handshakes { (w : ℕ) (g : Group) (s : Side) → strobed w g s ≡ handshake_on w g s }
    ensures roles { (w n : ℕ) → n < 8 → role_of w n ≡ role_by w n }
{}

/// Without a handshake of either group the chip drives all lines of the ports, and of the halves of port C, that the row of the mode 0 chart has
/// as outputs, and no others.
pub fn the_mode_0_chart_says_what_is_driven()
    ensures { (c : Chip) → handshake c.core.word A ≡ false → handshake c.core.word B ≡ false → AsCharted c (directions_of c.core.word) }
{}

/// A channel with a handshake has its STB or ACK, its IBF or OBF and its group's INTR at the pins that the sheet names. IBF is up if and only if
/// the channel is not empty, and OBF is down if and only if it waits. STB and ACK show the level outside, and a read tells the channel's enable there.
/// INTR is up while either half is, by the pins and the enables. A read tells the flag and INTR as the pins show them. A free pin shows, and a read of
/// it tells, the level outside if it is an input, and its bit of the latch if it is an output.
pub fn channels_have_their_pins()
    ensures used { (w : ℕ) (g : Group) → PinsUsed w g }
    ensures shown { (c : Chip) (g : Group) (s : Side) → strobed c.core.word g s ≡ true → PinsShown c g s }
    ensures free { (c : Chip) (n : ℕ) → n < 8 → FreePin c n }
{}

/// Ports A and B in modes 0 and 1. An output drives its lines with its latch, whatever port C shows, and reads as it. An input drives nothing,
/// and reads as its latch where it has a handshake, and else as its lines, which it follows at once. A write stores its byte in every port but
/// an input, and an output shows it from then on, whatever levels come from outside.
pub fn ports_go_one_way_in_modes_0_and_1()
    ensures outputs { (c : Chip) (g : Group) (a : ℕ) → own_address a g ≡ true → output_only c.core.word g ≡ true → Gives c g a }
    ensures inputs { (c : Chip) (g : Group) (a : ℕ) → own_address a g ≡ true → input_only c.core.word g ≡ true → Takes c g a }
    ensures written { (c : Chip) (g : Group) (a b x d : ℕ) → c.phase ≡ Writing a b → own_address a g ≡ true → PortWritten c g a b (step_of c 2 x d).state }
    ensures held { (c : Chip) (g : Group) (a x d : ℕ) → own_address a g ≡ true → output_only c.core.word g ≡ true → pins_of (step_of c 5 x d).state a ≡ pins_of c a }
    ensures follows { (c : Chip) (g : Group) (a d : ℕ) → own_address a g ≡ true → input_only c.core.word g ≡ true → handshake c.core.word g ≡ false → read_of (step_of c 5 a d).state a ≡ d }
{}

/// Port A in mode 2 is driven, with its output latch, exactly while ACK is low, and reads as its input latch.
pub fn port_a_goes_both_ways_in_mode_2()
    ensures { (c : Chip) → bit_of c.core.word 6 ≡ true → GivesAndTakes c }
{}

/// A write to port C puts the free outputs, those of the upper half only where group A has no handshake, and changes nothing else. Its latch stays
/// through every event but a reset and the end of a cycle: no levels change it, on any port. If no write to port C or to control runs, a reset alone
/// changes it. The chip drives every pin but free inputs, STB and ACK; of what it drives a read tells what the pins show, and what it does not drive
/// shows the level outside.
pub fn port_c_goes_by_plain_bits()
    ensures written { (c : Chip) (b x d : ℕ) → c.phase ≡ Writing 2 b → LinesWritten c.core b (step_of c 2 x d).state.core }
    ensures held { (c : Chip) (k x d : ℕ) → ¬ (k ≡ 0) → LinesHeld c k x d }
    ensures drives { (c : Chip) (n : ℕ) → n < 8 → driven c n ≡ driven_by c.core.word n }
    ensures shown { (c : Chip) (n : ℕ) → n < 8 → LineShown c n }
{}

/// The status word, whole, is what a read of port C tells of the pins that handshakes have, and what those of them show that the chip drives, all but
/// STB and ACK. A free pin tells its bit of the latch if it is an output, and else the level outside.
#[tactic(auto, using(crate::proofs::LinesByMasks::lines_by_masks, crate::proofs::LinesByMasks::pins_by_masks))]
pub fn the_status_word_is_what_port_c_tells()
    ensures read { (c : Chip) → c.core.word < 256 → read_by_status c ≡ read_of c 2 }
    ensures shown { (c : Chip) → c.core.word < 256 → pins_by_status c ≡ pins_of c 2 }
{}

/// Bit set/reset puts one pin of port C: a free output's bit in the latch, the enable of the channel whose STB or ACK is there, or the flag of
/// the channel whose IBF or OBF is there, which is forced. At any other pin it does nothing, and at these it does nothing else.
pub fn bit_set_reset_puts_one_pin()
    ensures { (c : Chip) (b x d : ℕ) → c.phase ≡ Writing 3 b → bit_of b 7 ≡ false → PinPut c.core b (step_of c 2 x d).state.core }
{}

/// A flag that is forced shows the level to which it was put, but that IBF stays high while a read fetches the byte. A byte is counted as
/// planted where the flag begins to say that one is there, and as struck where it ceases to. The latch stays.
pub fn forced_flags_are_shown_and_counted()
    ensures { (c : Chip) (g : Group) (s : Side) (v : Bool) (x d : ℕ) → strobed c.core.word g s ≡ true → puts c.phase (flag_pin g s) v ≡ true → Forced c (step_of c 2 x d).state g s v }
{}

/// No event moves an enable but a reset and the end of a write to control.
pub fn enables_move_by_control_words()
    ensures { (c : Chip) (k x d : ℕ) → moves_enables c.phase k ≡ false → EnablesStay c k x d }
{}

/// A strobed port reads as the levels that came last while its STB was low, be it in a read or in mode 2, and the fall of STB brings in what
/// stands on its lines. Nothing else loads an input latch: it stays through every other event but a reset and a mode word.
pub fn input_latches_load_while_stb_is_low()
    ensures loads { (c : Chip) (g : Group) (x : ℕ) → strobed c.core.word g Input ≡ true → own_address x g ≡ true → LatchLoads c g x }
    ensures stays { (c : Chip) (g : Group) → LatchStays c g }
{}

/// Levels that do not lower a channel's STB or ACK leave its condition and its tallies. No levels change an output's latch.
pub fn levels_move_a_channel_only_by_a_fall()
    ensures kept { (c : Chip) (g : Group) (s : Side) (x d : ℕ) → lets_fall c g s x d ≡ false → KeptByLevels c g s x d }
    ensures output_latch { (c : Chip) (g : Group) (x d : ℕ) → (channel_of (step_of c 5 x d).state.core g Output).latch ≡ (channel_of c.core g Output).latch }
{}

/// A channel without a handshake takes no part in edges and cycles: it keeps its condition and its tallies through every event but a reset and
/// the end of a mode word's write.
pub fn channels_without_a_handshake_stay()
    ensures { (c : Chip) (g : Group) (s : Side) (k x d : ℕ) → strobed c.core.word g s ≡ false → reaches_all c.phase k ≡ false → KeptByEvent c g s k x d }
{}

/// IBF is set by the fall of STB and reset by the end of the read, and not by its beginning. Besides, it moves only by bit set/reset of its pin,
/// by a mode word and by a reset.
pub fn ibf_moves_as_the_sheet_has_it()
    ensures { (c : Chip) (g : Group) → strobed c.core.word g Input ≡ true → IbfMoves c g }
{}

/// OBF is lowered by the end of a write to the port and raised by the fall of ACK. Besides, it moves only by bit set/reset of its pin, by a mode
/// word and by a reset.
pub fn obf_moves_as_the_sheet_has_it()
    ensures { (c : Chip) (g : Group) → strobed c.core.word g Output ≡ true → ObfMoves c g }
{}

/// INTR by the pins, as the sheet has it: a half is high while its enable is set, its flag and its line are high, and its own cycle does not
/// run. In mode 1 the pin shows the one half that there is, and in mode 2 either.
pub fn interrupts_are_told_by_the_pins()
    ensures mode_1 { (c : Chip) (g : Group) (s : Side) → mode_of c.core.word g ≡ 1 → strobed c.core.word g s ≡ true → IntrInMode1 c g s }
    ensures mode_2 { (c : Chip) → mode_of c.core.word A ≡ 2 → IntrInMode2 c }
{}

/// A read drops the input's half of INTR as it begins, and a write the output's; either leaves the other half, and that of the other group. A
/// cycle elsewhere leaves INTR as it begins and, unless it was a write to control, as it ends.
pub fn cycles_drop_their_own_half()
    ensures halves { (c : Chip) (g : Group) (s : Side) (x d : ℕ) → HalfAfter c g s x d }
    ensures interrupt { (c : Chip) (g : Group) (x d : ℕ) → IntrAfter c g x d }
    ensures read_runs { (c : Chip) (g : Group) (x d : ℕ) → number_of (limits c.edition) c.phase 1 x ≡ 0 → running (step_of c 1 x d).state.phase g Input ≡ own_address x g }
    ensures write_runs { (c : Chip) (g : Group) (x d : ℕ) → number_of (limits c.edition) c.phase 3 x ≡ 0 → running (step_of c 3 x d).state.phase g Output ≡ own_address x g }
{}

/// The reason that is given for a quiet INTR is true of what is seen, and the first that is; with that one cause altered, and no later one seen,
/// the half would be high. A group is said to be high exactly where the pins show its INTR high, and a half where the sheet's equation has it
/// high. A number above 1 names no group, and gets 2.
pub fn quiet_interrupts_have_their_reason()
    ensures is_so { (c : Chip) (g : Group) → TrueOfGroup c g (explained_in c g) }
    ensures would_be_high { (c : Chip) (g : Group) (s : Side) → strobed c.core.word g s ≡ true → WouldBeHigh c g s }
    ensures group_high { (c : Chip) (g : Group) → says_high (explained_in c g) ≡ intr_seen c g }
    ensures half_high { (c : Chip) (g : Group) (s : Side) → strobed c.core.word g s ≡ true → is_high (reason_of c g s) ≡ half c g s }
    ensures no_group { (c : Chip) (n : ℕ) → (numbers_of (explained_of c n)).number ≡ cond (ltb 1 n) 2 0 }
{}

/// The 8255A and the 82C55A are one chip but for the read of control: any other event gives in the one what it gives in the other. The edition
/// is seen nowhere else, and no event changes it.
pub fn editions_differ_in_the_read_of_control()
    ensures given_alike { (ed : Edition) (c : Chip) (k x d : ℕ) → reads_control k x ≡ false → step_of (as_edition ed c) k x d ≡ given_as ed (step_of c k x d) }
    ensures unseen { (ed : Edition) (c : Chip) → ShowsAlike (as_edition ed c) c }
    ensures stays { (c : Chip) (k x d : ℕ) → (step_of c k x d).state.edition ≡ c.edition }
{}

/// The older edition refuses a read of control with 3. The newer answers the mode word with bit 7 set, refuses it with 4 while a cycle runs, and
/// never gives 3. Neither such a read nor its end moves anything but the bus.
pub fn reads_of_control_tell_the_mode_word()
    ensures read { (c : Chip) (d : ℕ) → ControlRead c d }
    ensures ends { (c : Chip) (x d : ℕ) → c.phase ≡ Reading 3 → ControlReadEnds c x d }
    ensures never_three { (c : Chip) (k x d : ℕ) → c.edition ≡ Newer → ¬ ((step_of c k x d).number ≡ 3) }
{}

/// The five errors seen in other models, each forbidden in every state: IBF lowered as a read begins; a read of port C that tells the level of
/// STB or ACK in place of the enable; INTR dropped by a read of another port; upper bits of port C changed by a write to it beside a handshake
/// of group A; and a mode word equal to the last one taken for no change.
pub fn errors_of_other_models_are_forbidden()
    ensures ibf_as_a_read_begins { (c : Chip) (g : Group) (x d : ℕ) → strobed c.core.word g Input ≡ true → ibf c g ≡ true → ibf (step_of c 1 x d).state g ≡ true }
    ensures enable_in_a_read { (c : Chip) (g : Group) (s : Side) → strobed c.core.word g s ≡ true → told c (line_pin g s) ≡ enable_of c.core.inte g s }
    ensures intr_at_other_reads { (c : Chip) (g : Group) (x d : ℕ) → own_address x g ≡ false → intr_of (step_of c 1 x d).state g ≡ intr_of c g }
    ensures upper_bits { (c : Chip) (b x d : ℕ) → c.phase ≡ Writing 2 b → handshake c.core.word A ≡ true → UpperStays c (step_of c 2 x d).state }
    ensures same_word { (c : Chip) (x d : ℕ) → c.phase ≡ Writing 3 c.core.word → bit_of c.core.word 7 ≡ true → Anew c.core c.core.word (step_of c 2 x d).state.core }
{}

/// Each exception that the other promises here make, and each condition that they ask, is exactly this, in plain numbers and plain bits. They speak of
/// the cycle that runs, of the kind of an event, of levels, of what may move a flag, of a mode word, and of a group's address. The reasons for a quiet
/// INTR that come before each answer, and behind it, are those of two lists.
pub fn exceptions_are_these()
    ensures cycles { (ph : Phase) → CyclesMeant ph }
    ensures events { (ph : Phase) (k : ℕ) → EventsMeant ph k }
    ensures levels { (c : Chip) (g : Group) (x d : ℕ) → LevelsMeant c g x d }
    ensures flags { (c : Chip) (g : Group) (k x d : ℕ) → FlagMovesMeant c g k x d }
    ensures words { (w : ℕ) → WordsMeant w }
    ensures addresses { (a : ℕ) (g : Group) → (own_address a g ≡ true) ↔ (a ≡ own_port g) }
    ensures earlier { map earlier answers ≡ earlier_ones }
    ensures later { map later answers ≡ later_ones }
{}

/// The marked cases P1 to P13 hold of either edition. They are fifteen rows, since P9 and P13 have two each, with twenty-nine results in all.
#[tactic(auto, using(crate::proofs::Marked::marked))]
pub fn marked_cases_hold()
    ensures hold { (ed : Edition) → modelled ed cases ≡ stated cases }
    ensures rows { length cases ≡ 15 }
    ensures results { results_of cases ≡ 29 }
{}

/// Ten reads of control, computed: after histories of either edition, each has the number and the byte that are listed.
#[tactic(auto, using(crate::proofs::ControlExamples::as_said))]
pub fn reads_of_control_are_as_listed()
    ensures { model_gives examples ≡ list_gives examples }
{}
