//! That the two groups of the 8255A leave each other alone. A function here does nothing: its contract is the theorem.
#![tactic(auto)]

ghost use Rattle.std.specs.Prelude.{◌≡◌, ◌↔◌, ◌<◌, true, List, ℕ, length};
ghost use Rattle.bus.specs.Event.{Event};
ghost use Rattle.bus.specs.Histories.{levels};
ghost use Rattle.bus.specs.declared.Phase.TheVariants.{Idle};
ghost use Rattle.control.specs.declared.Group.{Group};
ghost use Rattle.control.specs.declared.Group.TheVariants.{A, B};
ghost use Rattle.chip.specs.declared.channel.Side.{Side};
ghost use Rattle.chip.specs.declared.Edition.{Edition};
ghost use Rattle.chip.specs.declared.Chip.{Chip};
ghost use Rattle.chip.specs.declared.Levels.{Levels};
ghost use Rattle.chip.specs.State.{all_high, power_up_with};
ghost use Rattle.fates.specs.Kinds.{kind_of};
ghost use Rattle.fates.specs.Surroundings.{at_power_up};
ghost use Rattle.fates.specs.Promise.{run, surroundings_of};
ghost use Rattle.groups.specs.Belongings.{belongings_of};
ghost use Rattle.groups.specs.Doings.{other, is_of, only_of};
ghost use Rattle.groups.specs.Alone.{without, in_the_way, out_of_the_way};
ghost use Rattle.groups.specs.Apart.{Left, LeftAlone, SameTo, SameBytes};
ghost use Rattle.groups.specs.Divided.{PinDivided, LinesOfBytes, SameInAll};
ghost use Rattle.groups.specs.InNumbers.{moment, scale_has, printer_has};
ghost use Rattle.groups.specs.Excluded.{EachChanges, examples, NoneIsOf, excluded};
ghost use Rattle.groups.specs.SideBySide.{SideBySide, ReadInTheWay, StatusRead};
ghost use Rattle.groups.specs.Kept.{KeptByA, KeptByB, SameFrom3, SameTo3};
ghost use Rattle.groups.specs.Lines.{LinesInNumbers};
ghost use Rattle.groups.specs.InTheWay.{Blocked, OutOfTheWay};
ghost use Rattle.groups.specs.OneGroup.{DoneOn, EachHarmless, StruckOut};

/// A history of which each accepted event is the other group's, or of a read of port C or of control, leaves a group as it was, from any chip,
/// whatever runs on its bus. From any chip with an idle bus so does each of the things that are done on the other group, one by one: levels on
/// its port and at its pins of port C, a read and a write of its port, and bit set/reset of those pins; and so does a read of port C or of
/// control. Of a cycle that is said in its middle and at its end.
pub fn each_group_leaves_the_other_alone()
    ensures history { (g : Group) (c : Chip) (es : List Event) → only_of (other g) (surroundings_of c) es ≡ true → Left g c es }
    ensures doings { (g : Group) (c : Chip) → c.phase ≡ Idle → LeftAlone g (other g) c }
{}

/// Whatever the other group does, from any chip: group A keeps pins 7 to 3 of port C, port A, both of its channels with all their tallies, its
/// two enables and its INTR; and group B keeps pins 2 to 0, port B, its channels, its enable and its INTR. What belongs to a group is this, and
/// nothing else: of two chips it is the same exactly where all of this is the same in both.
pub fn each_group_keeps_its_own()
    ensures a { (c : Chip) (es : List Event) → only_of B (surroundings_of c) es ≡ true → KeptByA (run c es) c }
    ensures b { (c : Chip) (es : List Event) → only_of A (surroundings_of c) es ≡ true → KeptByB (run c es) c }
    ensures nothing_else_a { (c c' : Chip) → (belongings_of A c' ≡ belongings_of A c) ↔ KeptByA c' c }
    ensures nothing_else_b { (c c' : Chip) → (belongings_of B c' ≡ belongings_of B c) ↔ KeptByB c' c }
{}

/// Nothing of a chip is forgotten: two chips, in which the latch and the lines of port C are bytes, are the same where they have the same mode
/// word, edition and bus, and the same belongings of both groups. Each pin of port C belongs to one group, which acts on it, unless it is pin 3.
#[tactic(auto, using(crate::proofs::Divided::same_in_all, crate::proofs::Divided::pin_divided))]
pub fn groups_divide_the_whole_chip()
    ensures chip { (c' c : Chip) → LinesOfBytes c' → LinesOfBytes c → SameInAll c' c → c' ≡ c }
    ensures pins { (n : ℕ) → n < 8 → PinDivided n }
{}

/// Levels on port C are group B's doing exactly where they differ from those outside at pins 2 to 0 at most, and then they leave group A; they
/// are group A's exactly where they differ at pins 7 to 4 at most, and then they leave group B. One chip is computed, before and after such
/// levels of each.
pub fn lines_are_divided_at_pin_3()
    ensures own_b { (c : Chip) (d : ℕ) → (only_of B (surroundings_of c) (levels 2 d) ≡ true) ↔ SameFrom3 d c.core.c.outside }
    ensures own_a { (c : Chip) (d : ℕ) → (only_of A (surroundings_of c) (levels 2 d) ≡ true) ↔ SameTo3 d c.core.c.outside }
    ensures a { (c : Chip) (d : ℕ) → SameFrom3 d c.core.c.outside → KeptByA (run c (levels 2 d)) c }
    ensures b { (c : Chip) (d : ℕ) → SameTo3 d c.core.c.outside → KeptByB (run c (levels 2 d)) c }
    ensures computed { LinesInNumbers }
{}

/// A group's events are levels on its port, levels on port C that differ from those outside at its pins at most, and the beginnings and the ends of
/// its cycles. Those are reads and writes of its port, and bit set/reset of its pins: 7 to 4 for group A, and 2 to 0 for group B. A history is of
/// one group alone exactly where each event that the chip accepts is the group's, or of a read of port C or of control. Without a group's events a
/// history has all others, in their order, and none of these.
pub fn histories_of_one_group_are_these()
    ensures event { (g : Group) (c : Chip) (e : Event)
        → (is_of g (surroundings_of c) (kind_of e) ≡ true) ↔ DoneOn c e g }
    ensures history { (g : Group) (c : Chip) (es : List Event)
        → (only_of g (surroundings_of c) es ≡ true) ↔ EachHarmless g c es }
    ensures left { (g : Group) (c : Chip) (es : List Event)
        → StruckOut g c es (without g (surroundings_of c) es) }
{}

/// Where the cycles of the other group are out of the way, a group lives as if it were alone: with and without the other's events a history
/// leaves the same of it, and brings its channels the same bytes with the same values and fates. So it is from any chip, where a byte that waits
/// at the start is among them, and from the power-up of either edition under any levels.
pub fn each_group_lives_as_if_alone()
    ensures chip { (g : Group) (c : Chip) (es : List Event) → out_of_the_way (other g) (surroundings_of c) es ≡ true → SameTo g c es (without (other g) (surroundings_of c) es) }
    ensures power_up { (g : Group) (s : Side) (ed : Edition) (l : Levels) (es : List Event) → out_of_the_way (other g) (at_power_up ed l) es ≡ true → SameBytes g s ed l es (without (other g) (at_power_up ed l) es) }
{}

/// A group is in the way of an event exactly where a cycle of the group runs, the event is refused with 4, and with an idle bus it would be
/// accepted and begin no cycle of the group. It is out of the way of a history exactly where no cycle of it runs at the start, and no event is
/// refused so.
pub fn in_the_way_is_refused_with_4()
    ensures event { (g : Group) (c : Chip) (e : Event) → (in_the_way g (surroundings_of c) (kind_of e) ≡ true) ↔ Blocked g c e }
    ensures history { (g : Group) (c : Chip) (es : List Event) → (out_of_the_way g (surroundings_of c) es ≡ true) ↔ OutOfTheWay g c es }
{}

/// A mode word, a reset, a write to port C, bit set of pin 3 and levels that differ there are no group's events, and each changes a group. Eight
/// examples are computed, with the levels of the group's pins before and after; and that none of the five counts as either group's.
pub fn some_events_belong_to_no_group()
    ensures changes { EachChanges examples }
    ensures eight { length examples ≡ 8 }
    ensures no_groups { (g : Group) → NoneIsOf g excluded }
    ensures five { length excluded ≡ 5 }
{}

/// All that belongs to the group of a scale and to that of a printer at one moment, computed in numbers.
#[tactic(auto, using(crate::proofs::InNumbers::scale_in_numbers, crate::proofs::InNumbers::printer_in_numbers))]
pub fn belongings_are_these_numbers()
    ensures scale { belongings_of A (run (power_up_with all_high) moment) ≡ scale_has }
    ensures printer { belongings_of B (run (power_up_with all_high) moment) ≡ printer_has }
{}

/// A scale and a printer at work, computed from the events: what is left of their history without either, and that each has the same bytes then.
/// A read of port A that is refused while a write to port B runs makes a difference; one that is refused while port C is read makes none.
#[tactic(auto, using(crate::proofs::SideBySide::computed))]
pub fn scale_and_printer_work_side_by_side()
    ensures together { SideBySide }
    ensures in_the_way { ReadInTheWay }
    ensures status { StatusRead }
{}
