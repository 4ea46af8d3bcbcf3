//! Theorems about a chip that a host keeps as an image, saves and restores. A function here does nothing: its contract is the theorem.
#![tactic(auto)]

ghost use Rattle.std.specs.Prelude.{◌≡◌, ◌↔◌, true, false, List, ℕ, Some, None, length};
ghost use Rattle.bus.specs.Event.{Event};
ghost use Rattle.control.specs.declared.Group.{Group};
ghost use Rattle.chip.specs.declared.Edition.{Edition};
ghost use Rattle.chip.specs.declared.Chip.{Chip};
ghost use Rattle.chip.specs.declared.Levels.{Levels};
ghost use Rattle.chip.specs.State.{power_up_as};
ghost use Rattle.chip.specs.Step.{stepped};
ghost use Rattle.fates.specs.Surroundings.{Surroundings};
ghost use Rattle.fates.specs.Promise.{run};
ghost use Rattle.fates.specs.Discipline.{Disciplined};
ghost use Rattle.image.specs.Layout.{image_of};
ghost use Rattle.image.specs.Loaded.{state_of};
ghost use Rattle.image.specs.Good.{has_image, is_image, Bytes};
ghost use Rattle.image.specs.Slices.{saved_in, loaded_from};
ghost use Rattle.image.specs.OlderLayout.{older_of};
ghost use Rattle.image.specs.OlderGood.{is_older};
ghost use Rattle.image.specs.Before.{FromBefore};
ghost use Rattle.calls.specs.Calls.{convert_image, step_answer, step_image};
ghost use Rattle.restored.specs.Header.{ByHeader};
ghost use Rattle.restored.specs.Host.{image_after, number_and_byte, Holds, ByDefault, GoesOn, CycleBegins, ComesBack, PoweredUp, StillNoneLost};
ghost use Rattle.restored.specs.Answers.{HostDisciplined, HostKept, ImageKept};
ghost use Rattle.restored.specs.Refusals.{RefusedBytes, NoImage, AcceptedBytes, PowersUp, Converts};
ghost use Rattle.restored.specs.Having.{HasImage, InRange, ComesFromBytes};
ghost use Rattle.restored.specs.Table.{Tells, TellsSome};
ghost use Rattle.restored.specs.Restoring.{IsImageOf, SavedOfNone, TellsNone, LoadsAsTold};
ghost use Rattle.restored.specs.OlderBytes.{OlderTells, Converted};
ghost use Rattle.restored.specs.SavedOlder.{five_saved, Becomes};
ghost use Rattle.restored.specs.SwitchedOn.{SwitchesOn};

/// The step of an image is the step of the chip that it tells: what the call leaves is the image of the chip after the event, also where the
/// event is refused, and its answer has the number of the event, with the byte above it.
pub fn images_step_as_their_chips()
    ensures image { (l : List ℕ) (k x d : ℕ) → Bytes l → is_image l ≡ true → step_image l k x d ≡ image_after l k x d }
    ensures answer { (l : List ℕ) (k x d : ℕ) → is_image l ≡ true → step_answer l k x d ≡ number_and_byte l k x d }
{}

/// Of bytes that are no image the step, the pin view, the tallies and the explanation answer 8, whatever the operands, and the step leaves each
/// byte as it was. So it is with more or fewer bytes than 96, which are no image, and with every older image. Of an image none of them answers 8:
/// the refusal, which is the answer modulo 256, is at most 5.
pub fn other_bytes_are_refused()
    ensures refused { (l : List ℕ) → is_image l ≡ false → RefusedBytes l }
    ensures other_length { (l : List ℕ) → ¬ (length l ≡ 96) → NoImage l }
    ensures older { (o : List ℕ) → is_older o ≡ true → NoImage o }
    ensures accepted { (l : List ℕ) → is_image l ≡ true → AcceptedBytes l }
{}

/// A power-up answers 0 exactly where there are 96 bytes, and the edition, where one is named, is 0 or 1. Otherwise it answers 8, and leaves
/// each byte as it was.
pub fn power_ups_need_room_and_an_edition()
    ensures { (l : List ℕ) → PowersUp l }
{}

/// A conversion answers 0 exactly where the first bytes are an older image, and there are 96 of the second. Otherwise it answers 8, and leaves
/// each of the second as it was.
pub fn conversions_need_an_older_image_and_room()
    ensures { (o l : List ℕ) → Converts o l }
{}

/// A chip has an image exactly where bit 7 of its mode word is set, its cycle names a place that its edition has, each input is empty unless the
/// mode word strobes it, and each output is empty, or is strobed and a byte waits in it. There are bytes that are an image, and from which the
/// chip is restored, exactly where this holds, and its bytes and tallies are in range.
pub fn chips_that_have_an_image()
    ensures conditions { (c : Chip) → (has_image c ≡ true) ↔ HasImage c }
    ensures restored { (c : Chip) → ComesFromBytes c ↔ (HasImage c × InRange c) }
{}

/// Every chip that events lead to from a power-up has an image: what is saved of it is an image, and the chip that is restored from that is the
/// same. No event leads from a chip that has an image to one that has none.
pub fn reached_chips_come_back()
    ensures reached { (ed : Edition) (v : Levels) (es : List Event) → ComesBack (run (power_up_as ed v) es) }
    ensures stays { (c : Chip) (e : Event) → has_image c ≡ true → ComesBack (stepped c e).state }
{}

/// Bytes are an image exactly where they tell, place by place, a chip that has one: 96 bytes, of which those that are not used are 0. That chip
/// is the one that is restored from them. A chip that has an image is saved as bytes that tell it.
pub fn images_tell_chips_place_by_place()
    ensures image { (l : List ℕ) → Bytes l → (is_image l ≡ true) ↔ TellsSome l }
    ensures restored { (l : List ℕ) (c : Chip) → Bytes l → HasImage c → Tells l c → state_of l ≡ c }
    ensures saved { (c : Chip) → HasImage c → Tells (image_of c) c }
{}

/// A chip is loaded from bytes exactly where they tell it by the table, and it has an image. From bytes that tell no such chip, and from more or
/// fewer than 96, none is loaded. What is saved of a chip that has an image over any 96 bytes gives back exactly this chip.
pub fn saved_chips_are_loaded()
    ensures loaded { (l : List ℕ) (c : Chip) → Bytes l → LoadsAsTold l c }
    ensures none { (l : List ℕ) → Bytes l → TellsNone l → loaded_from l ≡ None }
    ensures other_length { (l : List ℕ) → ¬ (length l ≡ 96) → loaded_from l ≡ None }
    ensures back { (l : List ℕ) (c : Chip) → length l ≡ 96 → HasImage c → loaded_from (saved_in l c) ≡ Some c }
{}

/// A chip has one image at most: two images from which the same chip is restored are the same bytes, and so are two lists of bytes that tell the
/// same chip by the table. What is saved of the chip that is restored from an image are the bytes of that image. A chip that has no image is
/// restored from none. What is saved of a chip is an image exactly where the chip has one, and bytes that are the image of no chip are no image.
pub fn chips_have_one_image()
    ensures one { (l m : List ℕ) (c : Chip) → Bytes l → Bytes m → IsImageOf l c → IsImageOf m c → l ≡ m }
    ensures told { (l m : List ℕ) (c : Chip) → Bytes l → Bytes m → HasImage c → Tells l c → Tells m c → l ≡ m }
    ensures again { (l : List ℕ) → Bytes l → is_image l ≡ true → image_of (state_of l) ≡ l }
    ensures none { (l : List ℕ) (c : Chip) → Bytes l → ¬ HasImage c → ¬ IsImageOf l c }
    ensures saved { (c : Chip) → (is_image (image_of c) ≡ true) ↔ HasImage c }
    ensures others { (l : List ℕ) → Bytes l → SavedOfNone l → is_image l ≡ false }
{}

/// The cycle that an image holds is one that its chip begins: were the bus idle, the chip would accept the event that begins it. So a read of
/// control runs in images of the newer edition alone.
pub fn images_hold_cycles_that_begin()
    ensures { (l : List ℕ) → Bytes l → is_image l ≡ true → CycleBegins l }
{}

/// From every power-up in 96 bytes, of either edition and under any levels, after any events that are passed to the step, the host holds an
/// image, that of the chip after these events. The power-ups that name no edition are those of the older, and the one that names no levels has
/// every line low.
pub fn power_ups_go_on_as_their_chips()
    ensures image { (l : List ℕ) (ed : Edition) (v : Levels) (es : List Event) → length l ≡ 96 → PoweredUp l ed v es }
    ensures by_default { (l : List ℕ) (a b c : ℕ) → ByDefault l a b c }
{}

/// From every image, after any events that are passed to the step, the host holds an image, that of the chip after these events. Each byte comes
/// to one end, as from a power-up; one that waited in the image counts as offered before, and one that still waits is what the latch holds. None
/// is planted or struck where no event forces the flag. So it is from every image that the conversion makes.
pub fn images_go_on_as_their_chips()
    ensures image { (l : List ℕ) (es : List Event) → Bytes l → is_image l ≡ true → GoesOn l es }
    ensures converted { (o l : List ℕ) (es : List Event) → Bytes o → is_older o ≡ true → length l ≡ 96 → GoesOn (convert_image o l) es }
{}

/// Where a run kept to the discipline up to an image that was saved in it, and keeps to it from there on, no input byte is overwritten or
/// swallowed, the one that waited in the image among them.
pub fn images_of_disciplined_runs_lose_none()
    ensures { (g : Group) (ed : Edition) (v : Levels) (before es : List Event) → StillNoneLost g ed v before es }
{}

/// What the calls answer after any events is worked out from these events: from a power-up without a chip, and from an image by what it tells.
/// So are the answers of the step, of the pin view, of the explanation and of the tallies, and each byte handed over was in the answers at its
/// place. From a power-up no input byte is overwritten or swallowed where device and program keep to the discipline, with IBF as the pin view
/// answers it, and none is planted or struck where no event forces the flag. Where the host holds the image of a chip, the discipline by the
/// answers is kept exactly where the discipline by the chip is.
pub fn answers_are_told_by_the_events()
    ensures from_power_up { (l : List ℕ) (ed : Edition) (v : Levels) (es : List Event) → length l ≡ 96 → HostKept l ed v es }
    ensures from_image { (l : List ℕ) (es : List Event) → Bytes l → is_image l ≡ true → ImageKept l es }
    ensures discipline { (g : Group) (a : Surroundings) (l : List ℕ) (c : Chip) (es : List Event) → Holds l c → HostDisciplined g a l es ↔ Disciplined g a c es }
{}

/// What the calls answer of bytes that tell a chip by the table is what the chip does and shows. Each part of it stands in the answer where the
/// header has it, and channels and tallies have the header's numbers.
pub fn answers_have_the_headers_numbers()
    ensures { (l : List ℕ) (c : Chip) → Bytes l → HasImage c → Tells l c → ByHeader l c }
{}

/// What a power-up leaves in 96 bytes, number by number: tallies of 0, the levels that are named, latches of 0, channels that are empty, the
/// mode word 9B, no enable, an idle bus, the edition that is named, and 0 in the bytes that are not used. Where no edition is named it is the
/// older, and where no levels are, every line is low.
pub fn power_ups_leave_these_bytes()
    ensures { (l : List ℕ) → length l ≡ 96 → SwitchesOn l }
{}

/// Bytes are an older image exactly where they tell, place by place, a chip of the older edition that has an image: 64 bytes, of which those
/// that are not used are 0. No others tell the same chip. They are read as that chip, and the conversion writes its image, in which both new
/// tallies read 0. So the 64 bytes in which earlier versions saved a chip become, by one call, the 96 bytes of the same chip.
pub fn older_images_tell_chips_place_by_place()
    ensures older_image { (o : List ℕ) → Bytes o → (is_older o ≡ true) ↔ ((c : Chip) × HasImage c × OlderTells o c) }
    ensures one { (o p : List ℕ) (c : Chip) → Bytes o → Bytes p → OlderTells o c → OlderTells p c → o ≡ p }
    ensures converted { (o : List ℕ) (c : Chip) → Bytes o → HasImage c → OlderTells o c → Converted o c }
    ensures saved { (c : Chip) → FromBefore c → OlderTells (older_of c) c }
    ensures brought_over { (c : Chip) → HasImage c → FromBefore c → Converted (older_of c) c }
{}

/// Five images of 64 bytes that an earlier version saved are accepted by the conversion, and the 96 bytes that stand beside each are written
/// over any 96 bytes.
pub fn saved_older_images_become_these()
    ensures { (room : List ℕ) → length room ≡ 96 → Becomes five_saved room }
{}
