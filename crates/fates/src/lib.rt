//! What becomes of every byte over a whole history: theorems about the definitions of the chip. A function here does nothing: its contract is
//! the theorem.
#![tactic(auto)]

ghost use Rattle.std.specs.Prelude.{◌≡◌, ◌↔◌, ◌%◌, ◌<◌, true, false, List, ℕ, ◌++◌, All, length};
ghost use Rattle.bits.specs.Bit.{bit_of};
ghost use Rattle.bus.specs.Event.{Event, event};
ghost use Rattle.bus.specs.Histories.{write, levels};
ghost use Rattle.bus.specs.declared.Phase.TheVariants.{Idle, Reading};
ghost use Rattle.control.specs.declared.Group.{Group};
ghost use Rattle.control.specs.declared.Group.TheVariants.{A};
ghost use Rattle.chip.specs.declared.channel.Side.{Side};
ghost use Rattle.chip.specs.declared.channel.Side.TheVariants.{Input, Output};
ghost use Rattle.chip.specs.declared.channel.Fill.{Fill};
ghost use Rattle.chip.specs.declared.channel.Fill.TheVariants.{Empty, Waiting, Fetching};
ghost use Rattle.chip.specs.declared.channel.Tally.{Tally};
ghost use Rattle.chip.specs.declared.Edition.{Edition};
ghost use Rattle.chip.specs.declared.Chip.{Chip};
ghost use Rattle.chip.specs.declared.Levels.{Levels};
ghost use Rattle.chip.specs.State.{levels_by, all_high, power_up_as, power_up_with, port_of, channel_of, tally_of};
ghost use Rattle.chip.specs.Pins.{pins_of};
ghost use Rattle.laws.specs.PlainBits.{handshake_on};
ghost use Rattle.fates.specs.Surroundings.{at_power_up};
ghost use Rattle.fates.specs.Effects.{strobe_pin};
ghost use Rattle.fates.specs.Numbers.{own_port};
ghost use Rattle.fates.specs.Bytes.{Byte, bytes_of};
ghost use Rattle.fates.specs.Raised.{NeverRaised};
ghost use Rattle.fates.specs.Promise.{Each, run, tallies, surroundings_of, new_bytes, all_bytes, Shows, HeldInTheLatch, WaitsByHandshake, FatesFromPowerUp, FatesFrom, Balanced, BalancedAfter, InOrder, NoneOffered, NoneHandedOver, SixteenBits};
ghost use Rattle.fates.specs.Follows.{latch_told, Follows};
ghost use Rattle.fates.specs.Discipline.{HasFound, Disciplined, NeverForced, NoneForced, NoneLost};
ghost use Rattle.fates.specs.ScriptRun.{AnsweredAsHistory, TextFates, TextLosesNone, TextForcesNone, Leaves};
ghost use Rattle.fates.specs.Examples.{examples, found_in, said_of, bytes_said, lost_bale, two_digits, in_and_written, too_late, strobed_times, bale_tally, before_ack};
ghost use Rattle.fates.specs.Spared.{Spared};
ghost use Rattle.fates.specs.Asked.{AsksNoMore};
ghost use Rattle.fates.specs.Kept.{KeepsTo};
ghost use Rattle.fates.specs.Harm.{StbFalls, Overwrites, SwallowsTheNext, Swallows};
ghost use Rattle.fates.specs.Conditions.{Wherever, NoneForces, EachMindsIbf, ReadHasFound, FallsOn, LatchIsTold, RaisesNot, seven, ComesOut, Placed};

/// Every byte that was offered or planted has one fate, over every history from every power-up: it was handed over, overwritten, swallowed,
/// cleared or struck, or it still waits. The chip's tallies count them, modulo 65,536, and its answers, its pins and its latch show them. From any
/// chip the counts go on from its tallies, and a byte that waits in it counts as offered at place 0; if it still waits, it too is what the latch
/// holds, unless it waits in an output that the mode word does not strobe. So it is of the history of every script.
pub fn every_byte_has_one_fate()
    ensures power_up { (g : Group) (s : Side) (ed : Edition) (l : Levels) (es : List Event) → FatesFromPowerUp g s ed l es }
    ensures any_chip { (g : Group) (s : Side) (c : Chip) → SixteenBits (tally_of c g s) → (es : List Event) → FatesFrom g s c es }
    ensures held { (g : Group) (s : Side) (c : Chip) → WaitsByHandshake g s c → (es : List Event) → HeldInTheLatch g s c es (all_bytes g s c es) }
    ensures script { (ed : Edition) (text : List ℕ) → TextFates ed text }
{}

/// The tallies of each channel balance after every history from every power-up, and from any chip in which they do: what was offered or planted
/// is what was handed over, overwritten, swallowed, cleared and struck, and the byte that may wait.
pub fn tallies_balance()
    ensures power_up { (g : Group) (s : Side) (ed : Edition) (l : Levels) (es : List Event) → BalancedAfter g s (power_up_as ed l) es }
    ensures any_chip { (g : Group) (s : Side) (c : Chip) → SixteenBits (tally_of c g s) → Balanced (tally_of c g s) (channel_of c.core g s).fill → (es : List Event) → BalancedAfter g s c es }
{}

/// A device that strobes only while IBF is low, beside a program that starts reading the port only while IBF is high, never loses a byte to a
/// later one or to the end of a read: from every power-up, and from any chip on which a read of the port that runs has found a byte. So it is of
/// the history of every script.
pub fn disciplined_bytes_are_not_lost()
    ensures power_up { (g : Group) (ed : Edition) (l : Levels) (es : List Event) → Disciplined g (at_power_up ed l) (power_up_as ed l) es → NoneLost (bytes_of g Input ed l es) }
    ensures any_chip { (g : Group) (c : Chip) → HasFound g c → (es : List Event) → Disciplined g (surroundings_of c) c es → NoneLost (all_bytes g Input c es) }
    ensures script { (ed : Edition) (text : List ℕ) → TextLosesNone ed text }
{}

/// Where no event forces the flag of a channel, none of its bytes is planted or struck, from every power-up and from any chip. So it is of the
/// history of every script.
pub fn unforced_flags_plant_and_strike_nothing()
    ensures power_up { (g : Group) (s : Side) (ed : Edition) (l : Levels) (es : List Event) → NeverForced g s (at_power_up ed l) es → NoneForced (bytes_of g s ed l es) (bytes_of g s ed l es) }
    ensures any_chip { (g : Group) (s : Side) (c : Chip) (es : List Event) → NeverForced g s (surroundings_of c) es → NoneForced (new_bytes g s c es) (all_bytes g s c es) }
    ensures script { (ed : Edition) (text : List ℕ) → TextForcesNone ed text }
{}

/// In every state, every event does to each channel what the history says that it is to it. Only the latch of an output without a handshake is
/// not told by it: a plain write fills that.
pub fn events_move_channels_as_histories_say()
    ensures { (g : Group) (s : Side) (c : Chip) (e : Event) → Follows g s c e }
{}

/// Only falls count: where STB is low at power-up, and no event has raised it, no byte was offered; and where ACK is, none was handed over. The
/// chip counts none either.
pub fn only_falls_count()
    ensures offered { (g : Group) (ed : Edition) (l : Levels) (es : List Event) → bit_of l.c (strobe_pin g Input) ≡ false → NeverRaised (strobe_pin g Input) es → NoneOffered g ed l es }
    ensures handed_over { (g : Group) (ed : Edition) (l : Levels) (es : List Event) → bit_of l.c (strobe_pin g Output) ≡ false → NeverRaised (strobe_pin g Output) es → NoneHandedOver g ed l es }
{}

/// From a power-up with every line high, once port A is an input in mode 1, the tally of bytes offered is n modulo 65,536 after n strobes, for
/// every n. After 70,000 it is 4,464.
pub fn strobes_are_counted()
    ensures any_number { (ed : Edition) (n v : ℕ) → (tally_of (run (power_up_as ed all_high) (strobed_times n v)) A Input).offered ≡ n % 65536 }
    ensures example { (ed : Edition) → (tally_of (run (power_up_as ed all_high) (strobed_times 70000 0x41)) A Input).offered ≡ 4464 }
{}

/// The answers to a script, from a power-up with every line high, are those that its history is given, one event for each line. The chip of the
/// older edition that it leaves is the one that its history leads to.
pub fn scripts_are_their_histories()
    ensures answers { (ed : Edition) (text : List ℕ) → AnsweredAsHistory ed text }
    ensures chip { (text : List ℕ) → Leaves text }
{}

/// Of a list of bytes none is lost exactly where each was handed over, cleared or struck, or still waits.
pub fn none_lost_is_each_spared()
    ensures { (bs : List Byte) → NoneLost bs ↔ Each (λ b. Spared b.outcome.fate) bs }
{}

/// What the discipline forbids loses bytes, from every chip whose port takes them by STB. STB that falls while a byte waits overwrites that
/// byte. STB that falls while a read fetches a byte brings one that is swallowed as the read ends. So does STB that falls while a read runs
/// which began on an empty channel. Each byte is counted as what it is.
pub fn undisciplined_strobes_lose_bytes()
    ensures waiting { (g : Group) (c : Chip) (x : ℕ) → StbFalls g c Waiting x → Overwrites g c x }
    ensures fetching { (g : Group) (c : Chip) (x : ℕ) → StbFalls g c Fetching x → c.phase ≡ Reading (own_port g) → SwallowsTheNext g c x }
    ensures empty { (g : Group) (c : Chip) (x : ℕ) → StbFalls g c Empty x → c.phase ≡ Idle → Swallows g c x }
{}

/// The discipline can be kept, and it asks something: two digits that are each read to the end keep to it, and last season's lost bale does not.
pub fn discipline_can_be_kept_and_broken()
    ensures kept { KeepsTo two_digits }
    ensures broken { ¬ KeepsTo lost_bale }
{}

/// Two histories of port A, computed, keep to the discipline and lose no byte. In one levels come onto the port while STB is low and IBF is
/// high; in the other the port is read in mode 0 while pin 5, which would be IBF, is low.
pub fn discipline_asks_no_more()
    ensures { AsksNoMore }
{}

/// A flag is forced by the end of a write to control, of a word that has bit 7 clear and names the flag's pin in bits 3 to 1, while the mode word
/// gives the channel a handshake. A history never forces the flag exactly where no event of it is that. Bit 0 may have either level, and it counts
/// too where there is no room for a byte, or none to strike.
pub fn flags_are_forced_by_these_writes()
    ensures power_up { (g : Group) (s : Side) (ed : Edition) (l : Levels) (es : List Event)
        → NeverForced g s (at_power_up ed l) es ↔ NoneForces g s (power_up_as ed l) es }
    ensures any_chip { (g : Group) (s : Side) (c : Chip) (es : List Event)
        → NeverForced g s (surroundings_of c) es ↔ NoneForces g s c es }
{}

/// Device and program keep to the discipline exactly where every event keeps to two rules about a port that takes bytes by STB. Levels on port C
/// lower STB only while IBF is low. A read of the port begins, on an idle bus, only while IBF is high. The condition at the start speaks of a read
/// of such a port, and what the discipline forbids of such a fall of STB.
pub fn discipline_is_these_two_rules()
    ensures power_up { (g : Group) (ed : Edition) (l : Levels) (es : List Event)
        → Disciplined g (at_power_up ed l) (power_up_as ed l) es
        ↔ EachMindsIbf g (power_up_as ed l) es }
    ensures any_chip { (g : Group) (c : Chip) (es : List Event)
        → Disciplined g (surroundings_of c) c es ↔ EachMindsIbf g c es }
    ensures at_the_start { (g : Group) (c : Chip) → HasFound g c ↔ ReadHasFound g c }
    ensures falls { (g : Group) (c : Chip) (f : Fill) (x : ℕ) → StbFalls g c f x ↔ FallsOn g c f x }
{}

/// The other conditions, in numbers. A pin of port C is never raised exactly where all levels that come onto that port have it low. That a byte
/// waits by a handshake asks nothing of an input, and of an output in which one waits that the mode word gives it a handshake. A history tells the
/// latch of an input, that of an output with a handshake, and every latch after a reset or a mode word. Tallies have sixteen bits where all seven
/// are below 65,536, and balance where both sums differ by whole rounds of that. Bytes are in order exactly where the first is offered no earlier
/// than the bound, each is decided after it is offered, and none after the next is offered.
pub fn conditions_are_these()
    ensures never_raised { (n : ℕ) (es : List Event)
        → NeverRaised n es ↔ Wherever (λ before e. RaisesNot n e) es }
    ensures waits_in { (g : Group) (c : Chip) → WaitsByHandshake g Input c }
    ensures waits_out { (g : Group) (c : Chip) → WaitsByHandshake g Output c
        ↔ ((port_of c.core g).output.fill ≡ Waiting → handshake_on c.core.word g Output ≡ true) }
    ensures latch { (g : Group) (s : Side) (c : Chip) (e : Event)
        → (latch_told g s c e ≡ true) ↔ LatchIsTold g s c e }
    ensures sixteen_bits { (t : Tally) → SixteenBits t ↔ All (λ n. n < 65536) (seven t) }
    ensures balanced { (t : Tally) (f : Fill) → Balanced t f ↔ ComesOut t f }
    ensures in_order { (n : ℕ) (bs : List Byte) → InOrder n bs ↔ Placed n bs }
{}

/// Twenty-one examples have the bytes and fates that stand beside them, thirty in all, on a chip of either edition: computed from the events.
pub fn examples_have_these_bytes()
    ensures said { (ed : Edition) → found_in ed examples ≡ said_of examples }
    ensures rows { length examples ≡ 21 }
    ensures bytes { bytes_said examples ≡ 30 }
{}

/// What the chip counts and shows in some of the examples, computed from its definitions: the tallies of the lost bale; and in mode 2 the pins
/// before ACK falls, and as it falls. And with STB low: levels that no byte has are read by a read that finds none; after a mode word the latch
/// is 00 until levels come, be they those already there.
pub fn chip_counts_and_shows_examples()
    ensures bale { tallies A Input (power_up_with all_high) lost_bale ≡ bale_tally }
    ensures not_before_ack { pins_of (run (power_up_with all_high) in_and_written) 0 ≡ before_ack }
    ensures as_ack_falls { Shows A Output (run (power_up_with all_high) in_and_written) (event 5 2 0xbf) 0x55 }
    ensures late_levels { Shows A Input (run (power_up_with all_high) too_late) (event 1 0 0) 0x43 }
    ensures zero_at_first { Shows A Input (run (power_up_with (levels_by 0x41 0 0)) (write 3 0xb0)) (event 1 0 0) 0 }
    ensures same_levels { Shows A Input (run (power_up_with (levels_by 0x41 0 0)) (write 3 0xb0 ++ levels 0 0x41)) (event 1 0 0) 0x41 }
{}
