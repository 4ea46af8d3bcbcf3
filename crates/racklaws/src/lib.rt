//! Theorems about a rack of cards. A function here does nothing: its contract is the theorem.
#![tactic(auto)]

ghost use Rattle.std.specs.Prelude.{◌≡◌, ◌↔◌, ◌<◌, ◌≤◌, List, ℕ, length, map, Ok, Err};
ghost use Rattle.bus.specs.Event.{Event};
ghost use Rattle.bus.specs.Refusals.{limits_of};
ghost use Rattle.bus.specs.Answers.{number_told};
ghost use Rattle.bus.specs.Device.{run_in};
ghost use Rattle.bus.specs.Facts.{Facts};
ghost use Rattle.text.specs.Lines.{ended, rest};
ghost use Rattle.rack.specs.declared.Rack.{Rack};
ghost use Rattle.rack.specs.Bases.{most_cards};
ghost use Rattle.rack.specs.Answers.{bad_rack_told};
ghost use Rattle.rack.specs.State.{chip_at, rack_of, built_of};
ghost use Rattle.rack.specs.Step.{device};
ghost use Rattle.script.specs.declared.racks.TheConstants.{MOST_ROOM};
ghost use Rattle.racklaws.specs.Whom.{RackEvent, Access, access_of, seek, free, taken_by, card, bus_next, events_for};
ghost use Rattle.racklaws.specs.Promise.{rack_stepped, rack_run, bus_of, bases_of, whom_in, events_in, Whole, Follows, ChangesNothing, GoesOn, AsAlone, AsAloneFrom, AsBuilt, NoneFrom};
ghost use Rattle.racklaws.specs.Bases.{GoodBases, Located};
ghost use Rattle.racklaws.specs.Says.{Says, SaysAnEvent};
ghost use Rattle.racklaws.specs.Taken.{ReadAs, TakenAs, RefusesLine};
ghost use Rattle.racklaws.specs.Run.{RefusedWith, Refuses, Fits, Writes, FitsAll};
ghost use Rattle.racklaws.specs.Table.{number_by};
ghost use Rattle.racklaws.specs.Cycles.{event_by};
ghost use Rattle.racklaws.specs.Examples.{store, addresses, registers, while_it_runs, their_numbers, on_a_free_bus, its_numbers, history, for_the_scale, for_the_printer};

/// In every rack, what an event does is told by whom it reaches. Nobody: it is refused, and the rack is as it was. Every card: each does as a
/// chip alone. One card: it does, and answers, as a chip alone, and every other is as it was. So over any history each card is the chip that it
/// was, after the events that reach it; and the bus follows from the events.
pub fn each_card_is_a_chip_alone()
    ensures event { (r : Rack) → Whole r → (e : RackEvent) → Follows r (rack_stepped r e) (whom_in r e) (bus_next (bases_of r) (bus_of r.phase) e) }
    ensures others { (r : Rack) → Whole r → (e : RackEvent) (i : ℕ) (own : Event) → whom_in r e ≡ card i own → (j : ℕ) → ¬ (j ≡ i) → chip_at (rack_stepped r e).state j ≡ chip_at r j }
    ensures history { (r : Rack) → Whole r → (es : List RackEvent) → GoesOn r es }
{}

/// What is promised of a chip alone holds of each card, over the events that reach it: what it shows, counts and explains, the fates of its
/// bytes, the discipline, what follows where no flag is forced, and the account. So it is from a building, and from every rack.
pub fn promises_hold_of_each_card()
    ensures built { (bs : List ℕ) → length bs ≤ most_cards → (es : List RackEvent) (i : ℕ) → i < length bs → AsAlone bs es i (events_for i bs free es) }
    ensures any { (r : Rack) → Whole r → (es : List RackEvent) (i : ℕ) → i < most_cards → AsAloneFrom r es i (chip_at r i) (events_in i r es) }
{}

/// An event that a rack refuses changes nothing, in any card or on the bus, and its byte is 00; and it reaches none of the cards.
pub fn refused_events_change_nothing()
    ensures { (r : Rack) → Whole r → (e : RackEvent) → ¬ ((rack_stepped r e).number ≡ 0) → ChangesNothing r e }
{}

/// In every rack, the number of every event is that of the first refusal that applies, in the order 1, 10, 2, 3, 4, 5, and 0 where none does.
/// Twelve accesses while a cycle runs, and eight on a free bus, are computed.
pub fn first_refusal_has_the_number()
    ensures number { (r : Rack) → Whole r → (e : RackEvent) → (rack_stepped r e).number ≡ number_by (bases_of r) (bus_of r.phase) (access_of e) }
    ensures while_it_runs { map (λ (a : Access). number_by store (taken_by 0) a) while_it_runs ≡ their_numbers }
    ensures on_a_free_bus { map (λ (a : Access). number_by store free a) on_a_free_bus ≡ its_numbers }
{}

/// Under good bases location n of the card at a place is its register n modulo 4. No other address is a register, no location is in two cards,
/// and two addresses of one card are the same register exactly where they agree modulo 4. Nineteen addresses are computed.
pub fn each_location_is_one_register()
    ensures located { (bs : List ℕ) → GoodBases bs → Located bs }
    ensures computed { map (λ (a : ℕ). seek 0 a store) addresses ≡ registers }
{}

/// Good bases, in plain numbers, make a rack, and no others do: these are refused with 9, and give none. The rack has these bases, in their order,
/// and in each place a chip at power-up.
pub fn good_bases_alone_make_a_rack()
    ensures good { (bs : List ℕ) → GoodBases bs → built_of bs ≡ Ok (rack_of bs) }
    ensures others { (bs : List ℕ) → ¬ GoodBases bs → built_of bs ≡ Err (record {}) }
    ensures accepted { (bs : List ℕ) → GoodBases bs → number_told bad_rack_told (built_of bs) ≡ 0 }
    ensures refused { (bs : List ℕ) → ¬ GoodBases bs → number_told bad_rack_told (built_of bs) ≡ 9 }
    ensures built { (bs : List ℕ) → length bs ≤ most_cards → AsBuilt bs }
{}

/// A rack has no card at the places from the count of its bases on. There each view is refused with 10, after any history, and an explanation is,
/// whatever the number of the group. So it is of a rack that was built, and of every rack.
pub fn places_without_a_card_show_nothing()
    ensures built { (bs : List ℕ) → length bs ≤ 8 → NoneFrom (length bs) (rack_of bs) }
    ensures any { (r : Rack) → Whole r → NoneFrom (length (bases_of r)) r }
{}

/// The facts about cycles hold of a rack, by the same law as of a chip: it is a device with 32 registers, 24 of which can be read, and 24 ports.
/// The histories of a rack are those of that device.
pub fn facts_about_cycles_hold_of_racks()
    ensures facts { (r : Rack) → Facts device (limits_of 32 24 24) r }
    ensures histories { (r : Rack) (es : List RackEvent) → rack_run r es ≡ run_in device r (map (event_by r.count r.bases) es) }
{}

/// A further line of a rack's script is read as an event exactly if it says that event digit by digit, a kind and just its operands; and the rack takes
/// it so. A line that says none is refused with 1 by every rack, and so is a rest without LF, however well it is formed. The byte is then 00, and the
/// rack is as it was.
pub fn rack_lines_say_events()
    ensures read { (line : List ℕ) (e : RackEvent) → ReadAs line e ↔ Says line e }
    ensures taken { (r : Rack) (line : List ℕ) (e : RackEvent) → Says line e → TakenAs r line e }
    ensures others { (r : Rack) (line : List ℕ) → ¬ SaysAnEvent line → RefusesLine r (ended line) }
    ensures rest { (r : Rack) (line : List ℕ) → RefusesLine r (rest line) }
{}

/// The run of a rack's script is refused with 6 if the text has more than 4,096 bytes, then with 9 if its first line is no rack, and then with 7 if the
/// answers do not fit into the output. They take five bytes for each further line, and six more for each card. A refused run tells no lines, and leaves
/// every byte of the output. Any other run is accepted, and tells how many lines it answered and in how many bytes. The output then begins with the
/// rack's answers to these lines, and every byte behind them is as it was. `MOST_ROOM`, 217,088 bytes, is enough for every text of at most 4,096 bytes.
pub fn rack_runs_write_the_answers()
    ensures refused { (text out : List ℕ) (n : ℕ) → RefusedWith text out n → Refuses text out n }
    ensures accepted { (text out : List ℕ) (fits : Fits text out) → Writes text out fits.named }
    ensures most_room { MOST_ROOM ≡ 217088 }
    ensures enough { FitsAll MOST_ROOM }
{}

/// What of a history reaches a scale's card, and what a printer's, computed from the bases and the events.
#[tactic(auto, using(crate::proofs::Examples::scale_reached, crate::proofs::Examples::printer_reached))]
pub fn example_reaches_both_cards()
    ensures scale { events_for 0 store free history ≡ for_the_scale }
    ensures printer { events_for 1 store free history ≡ for_the_printer }
{}
