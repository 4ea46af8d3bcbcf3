//! Theorems about the trim of a journal. A function here does nothing: its contract is the theorem.
#![tactic(auto)]

ghost use Rattle.std.specs.Prelude.{◌≡◌, ◌↔◌, ◌<◌, ◌≤◌, true, List, ℕ, length};
ghost use Rattle.bus.specs.Event.{Event};
ghost use Rattle.chip.specs.declared.Edition.{Edition};
ghost use Rattle.chip.specs.declared.Chip.{Chip};
ghost use Rattle.chip.specs.declared.Levels.{Levels};
ghost use Rattle.image.specs.Layout.{image_of};
ghost use Rattle.image.specs.Good.{has_image};
ghost use Rattle.journal.specs.Words.{word_of, event_in};
ghost use Rattle.journallaws.specs.Frames.{Frame, Frames};
ghost use Rattle.journallaws.specs.Packing.{Packs, word_is_frame};
ghost use Rattle.journallaws.specs.Keeps.{Exactly};
ghost use Rattle.journallaws.specs.Promise.{Trimmed, Numbered};
ghost use Rattle.journallaws.specs.ByEvents.{ByEvents};
ghost use Rattle.journallaws.specs.Example.{a_store, kept_among, given, said};

/// A trim that is accepted, of either edition and under any levels at power-up, keeps exactly the events after which the chip is another than
/// before: in front, in their order, with zero words behind them, and their count is the answer. What is kept leads to the same chip, the same
/// tallies and the same image, and brings each channel the same bytes with the same fates; so it does where the same new events are logged
/// behind it. Trimmed again, it stays as it is.
pub fn accepted_trims_keep_what_changes_the_chip()
    ensures { (ed : Edition) (v : Levels) (ws : List ℕ) → length ws ≤ 8192 → Frames ws → Trimmed ed v ws }
{}

/// After any events from any power-up, the events alone tell of the next one whether it is kept. A refused one is dropped, and each accepted
/// beginning or end of a cycle is kept. Levels are kept where they are others than those there, or go through to an input latch that holds
/// something else; a reset is kept while a cycle runs, and under another mode word than that of power-up. Otherwise both are dropped.
pub fn events_tell_what_is_kept()
    ensures { (ed : Edition) (v : Levels) (es : List Event) → ByEvents ed v es }
{}

/// The number of every call: 8 where there is no such edition, then 6 where there are more than 8,192 words, then 1 where a word is no frame,
/// and else 0. A refused call answers its number alone, and changes no word.
pub fn trims_are_numbered()
    ensures { (ws : List ℕ) (edition a b c : ℕ) → Numbered ws edition a b c }
{}

/// A word is a frame exactly where it is a reset, the beginning of a read, the end of a cycle, the beginning of a write, or levels on a port, in
/// plain numbers: each operand is a byte, and nothing else is in the word.
pub fn frames_have_five_shapes()
    ensures { (w : ℕ) → (word_is_frame w ≡ true) ↔ Frame w }
{}

/// The word of an event is its kind times 65,536, its first operand times 256, and its second, and that word is read as that event. Every event
/// whose operands are bytes is read back from its word, and every word is what it packs, packed again.
pub fn words_pack_events()
    ensures packs { (kind first second : ℕ) → first < 256 → second < 256 → Packs kind first second }
    ensures read_back { (e : Event) → e.first < 256 → e.second < 256 → event_in (word_of e) ≡ e }
    ensures packed_back { (w : ℕ) → word_of (event_in w) ≡ w }
{}

/// The test of two chips, which compares the numbers of all their fields, answers exactly whether they are equal. Two chips that have an image
/// are equal where their images are.
pub fn chips_are_told_apart_exactly()
    ensures test { (c d : Chip) → Exactly c d }
    ensures images { (c d : Chip) → has_image c ≡ true → has_image d ≡ true → image_of c ≡ image_of d → c ≡ d }
{}

/// A journal of eighteen words, in which each reason to keep an event and to drop one is seen, but for a reset while a cycle runs, is trimmed as
/// it says: ten words are kept, on a chip of either edition.
pub fn example_is_trimmed()
    ensures gives { (ed : Edition) → given ed ≡ said }
    ensures eighteen { length a_store ≡ 18 }
    ensures ten { length (kept_among a_store) ≡ 10 }
{}
