//! Theorems about what the program prints of a script, in words apart from those by which it is defined. A function here does nothing: its
//! contract is the theorem.
#![tactic(auto)]

ghost use Rattle.std.specs.Prelude.{◌≡◌, ◌↔◌, true, false, ℕ, ◌<◌, ◌≤◌, List, [], ◌∷◌, eqb, length, map};
ghost use Rattle.chip.specs.Pins.{pins_of};
ghost use Rattle.text.specs.Lines.{Line, lines_of};
ghost use Rattle.text.specs.History.{history_of};
ghost use Rattle.text.specs.Quoted.{answered, listed, codes};
ghost use Rattle.rack.specs.declared.Rack.{Rack};
ghost use Rattle.rack.specs.State.{rack_of, chip_at};
ghost use Rattle.rack.specs.Targets.{is_place};
ghost use Rattle.script.specs.Left as walk;
ghost use Rattle.script.specs.RackAnswers.{answering};
ghost use Rattle.script.specs.Run.{too_long};
ghost use Rattle.racklaws.specs.NamesRack.{NamesRack};
ghost use Rattle.prints.specs.declared.Device.{Device};
ghost use Rattle.prints.specs.declared.Device.TheVariants.{I8255A, I82C55A, I8355};
ghost use Rattle.prints.specs.Printed.{printed, printed_of_rack, refuses_rack};
ghost use Rattle.prints.specs.Left.{left_of};
ghost use Rattle.prints.specs.Mended.{refuses_mending, printed_mended, said_of_all, has_unfit};
ghost use Rattle.prints.specs.Quiet.{printed_quiet};
ghost use Rattle.prints.specs.Trimmed.{refuses_trimming, printed_trimmed};
ghost use Rattle.prints.specs.Strays.{said_of_strays};
ghost use Rattle.printlaws.specs.ByAccount.{accounted_lines, listed_scripts};
ghost use Rattle.printlaws.specs.Columns.{Answers};
ghost use Rattle.printlaws.specs.ByRack.{InColumns};
ghost use Rattle.printlaws.specs.Refused.{IsLong, LacksRack, long_text_refused, first_line_refused, capture_refused, line_refused, long_text_unexplained, length_of_a_number, IsEither};
ghost use Rattle.printlaws.specs.Explained.{explained_at_first};
ghost use Rattle.printlaws.specs.RackTexts.{rack_texts};
ghost use Rattle.printlaws.specs.Capture.{a_capture, clean_script, said_of_its_lines, a_fit_capture};
ghost use Rattle.printlaws.specs.Words.{accounted_words};
ghost use Rattle.printlaws.specs.QuietTexts.{quiet_texts};
ghost use Rattle.printlaws.specs.Trimmed.{TextKept, SaysEvents, a_script, stray_texts};

/// Of a text of at most 4,096 bytes the program prints the lines that the account of the text's history has, from a power-up with every line
/// high: asked for an 8255A those of the older edition, for an 82C55A those of the newer, and for an 8355 those of the 8355. Of nine scripts for
/// each of the two, and of four for the 8355, it prints the answers that are listed beside them.
#[tactic(auto, using(crate::proofs::ByAccount::by_account, crate::proofs::ByAccount::as_listed))]
pub fn scripts_print_what_the_account_says()
    ensures account { (device : Device) (text : List ℕ) → length text ≤ 4096 → printed device text ≡ accounted_lines device (history_of text) }
    ensures texts { (device : Device) → answered (printed device) (listed_scripts device) ≡ listed (listed_scripts device) }
    ensures counted { map (λ device. length (listed_scripts device)) (I8255A ∷ I82C55A ∷ I8355 ∷ []) ≡ 9 ∷ 9 ∷ 4 ∷ [] }
{}

/// Of a text of at most 4,096 bytes whose first line is a rack the program prints one line for each further line, and nothing else: the number
/// and the byte of the rack's step, the levels that the pins of each card then show, card by card, of ports A, B and C, all in two digits, and
/// LF. So it is of the answers of any rack of at most eight cards to any lines. In whatever state the rack is, the levels of a card in an answer
/// line are those that the card's own pins show.
#[tactic(auto, using(crate::proofs::RackPrinted::columns))]
pub fn rack_scripts_print_columns()
    ensures printed { (text : List ℕ) (named : NamesRack text) → length text ≤ 4096 → Answers (rack_of named.bases) (lines_of named.further) (printed_of_rack text) }
    ensures answers { (ls : List Line) (r : Rack) → r.count ≤ 8 → InColumns ls r }
    ensures levels { (r : Rack) (place port : ℕ) → is_place r.count place ≡ true → answering.levels r place port ≡ (pins_of (chip_at r place) port).levels }
{}

/// Of a text of at most 4,096 bytes whose first line is no rack the program prints 09 and LF, and nothing else.
#[tactic(auto, using(crate::proofs::NamesRack::others_print_09))]
pub fn other_first_lines_print_09()
    ensures { (text : List ℕ) → LacksRack text → printed_of_rack text ≡ first_line_refused }
{}

/// Of a text of more than 4,096 bytes the program prints 06 and LF, and nothing else, whichever device it is asked for, and of a rack's too.
#[tactic(auto, using(crate::proofs::LongTexts::by_device, crate::proofs::LongTexts::by_rack))]
pub fn long_texts_print_06()
    ensures device { (device : Device) (text : List ℕ) → IsLong text → printed device text ≡ long_text_refused }
    ensures rack { (text : List ℕ) → IsLong text → printed_of_rack text ≡ long_text_refused }
{}

/// A text is refused as a whole, which makes the program fail, exactly if three bytes are printed of it, as many as a number alone has, two
/// digits and LF; whichever device answers, or a rack. Of a device's script these are 06 and LF, and of a rack's 06 or 09 and LF. A script to be
/// trimmed is refused exactly if 06 or 01 and LF are printed; a captured script exactly if 06 and LF are, which is no clean script; and a script whose
/// interrupts are to be explained exactly if the sentence is.
#[tactic(auto, using(crate::proofs::Failing::failing))]
pub fn refused_texts_print_a_number_alone()
    ensures device { (device : Device) (text : List ℕ) → too_long text ≡ eqb (length (printed device text)) length_of_a_number }
    ensures rack { (text : List ℕ) → refuses_rack text ≡ eqb (length (printed_of_rack text)) length_of_a_number }
    ensures six { (device : Device) (text : List ℕ)
        → (too_long text ≡ true) ↔ (printed device text ≡ long_text_refused) }
    ensures six_or_nine { (text : List ℕ) → (refuses_rack text ≡ true)
        ↔ IsEither (printed_of_rack text) long_text_refused first_line_refused }
    ensures trimming { (text : List ℕ) → (refuses_trimming text ≡ true)
        ↔ IsEither (printed_trimmed text) long_text_refused line_refused }
    ensures capture { (text : List ℕ) → (refuses_mending text ≡ true) ↔ (printed_mended text ≡ capture_refused) }
    ensures explanation { (text : List ℕ)
        → (too_long text ≡ true) ↔ (printed_quiet text ≡ long_text_unexplained) }
{}

/// That the chip whose interrupts the program explains is an 8255A, with every line high at its power-up, is seen by two scripts: one that reads
/// address 3, which the older edition alone refuses, is refused so and leaves that chip; any of more than 4,096 bytes is refused with 6 and
/// leaves it too.
#[tactic(auto, using(crate::proofs::LeftByOlder::refuses, crate::proofs::LeftByOlder::too_long))]
pub fn explained_chips_are_of_the_older_edition()
    ensures refused { left_of (codes "0103\n") ≡ walk.left 0 explained_at_first 1 }
    ensures too_long { (text : List ℕ) → 4096 < length text → left_of text ≡ walk.left 6 explained_at_first 0 }
{}

/// Asked why the interrupts are quiet after a text of at most 4,096 bytes, the program prints what the account of the text's history says, from a
/// power-up of the older edition with every line high: the lines of group A and then of group B, the input's before the output's, in the words of a
/// table; and behind them, if there are any, how many lines have another number than 0. It prints nothing else. Of a longer text it prints a
/// sentence. Of two scripts it prints what is listed beside them.
#[tactic(auto, using(crate::proofs::Words::explained_so, crate::proofs::QuietTexts::quiet_texts_printed))]
pub fn explanations_say_what_the_account_says()
    ensures said { (text : List ℕ)
        → length text ≤ 4096 → printed_quiet text ≡ accounted_words (history_of text) }
    ensures too_long { (text : List ℕ)
        → 4096 < length text → printed_quiet text ≡ long_text_unexplained }
    ensures texts { answered printed_quiet quiet_texts ≡ listed quiet_texts }
    ensures two { length quiet_texts ≡ 2 }
{}

/// Asked to trim a text of at most 4,096 bytes, each line of which says an event, the program prints exactly the lines after which the chip is another
/// than before, in their order and byte for byte as they stand. The chip is one of the older edition at its power-up, with every line high. If a line says
/// no event, 01 and LF are printed, and of a longer text 06 and LF. Of one script of twelve lines it prints what is listed beside it; and of three
/// with lines that say no event it says on standard error what is listed beside them.
#[tactic(auto, using(crate::proofs::Trimmed::trimmed_so, crate::proofs::TrimmedText::computed))]
pub fn trims_print_the_lines_that_change_the_chip()
    ensures kept { (text : List ℕ)
        → length text ≤ 4096 → SaysEvents text → TextKept text (printed_trimmed text) }
    ensures no_frame { (text : List ℕ)
        → length text ≤ 4096 → ¬ SaysEvents text → printed_trimmed text ≡ line_refused }
    ensures too_long { (text : List ℕ)
        → 4096 < length text → printed_trimmed text ≡ long_text_refused }
    ensures script { printed_trimmed (codes a_script.script) ≡ codes a_script.answers }
    ensures twelve { length (lines_of (codes a_script.script)) ≡ 12 }
    ensures strays { answered said_of_strays stray_texts ≡ listed stray_texts }
    ensures three { length stray_texts ≡ 3 }
{}

/// Of thirteen scripts of racks the program prints what is listed beside them: two cards that differ in what they show, lines with an operand too
/// many, and first lines that are a rack and that are none.
#[tactic(auto, using(crate::proofs::RackTexts::rack_texts_printed))]
pub fn rack_texts_print_as_listed()
    ensures printed { answered printed_of_rack rack_texts ≡ listed rack_texts }
    ensures texts { length rack_texts ≡ 13 }
{}

/// Of seven captured lines the program prints the clean script, and says on standard error what became of each that was not kept. It fails, as
/// some are unfit. Of a script without an unfit line it does not.
#[tactic(auto, using(crate::proofs::Captured::computed))]
pub fn captures_print_as_listed()
    ensures printed { printed_mended a_capture ≡ clean_script }
    ensures said { said_of_all a_capture ≡ said_of_its_lines }
    ensures fails { has_unfit a_capture ≡ true }
    ensures ends_well { has_unfit a_fit_capture ≡ false }
    ensures seven { length (lines_of a_capture) ≡ 7 }
{}
