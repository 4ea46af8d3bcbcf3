// What the histories of a run were made of and what happened in them: a row of counts, of which the first is that of the histories and the
// last that of the differences between the two models; how often something was to be counted at a place that the row lacks; and the first
// difference. A row, and no struct with a name for each count: the text into which it is printed names them, in their order.
ghost use Rattle.std.specs.Prelude.{◌<◌};

use bus::kinds::Kind;

// Where a difference is: the history, the place in it, and the event as one number; and all that was compared, of the proved model and of the
// second one.
#[derive(Clone, Copy)]
pub(super) struct Difference<V> {
    pub(super) history: u64,
    pub(super) place: u64,
    pub(super) event: u64,
    pub(super) one: V,
    pub(super) other: V,
}

#[derive(Clone, Copy)]
pub(super) struct Row<V, const N: usize> {
    pub(super) counts: [u64; N],
    pub(super) out_of_place: u64,
    pub(super) first: Option<Difference<V>>,
}

// The place of a kind among the counts of kinds. The last of them is for numbers that are no kind.
pub(super) fn order(kind: u8) -> usize
    ensures { result < 6 }
{
    match Kind::numbered(u16::from(kind)) {
        Some(Kind::Reset) => 0,
        Some(Kind::BeginRead) => 1,
        Some(Kind::EndCycle) => 2,
        Some(Kind::BeginWrite) => 3,
        Some(Kind::OutsideLevels) => 4,
        None => 5,
    }
}

// The counts of so many histories, each of which is run from a seed and gives that of the next. They are of any type, and no `Row`, since the
// bound of a closure may name no const parameter.
pub(super) fn of_histories<C: Default, F: Fn(&mut C, u64) -> u64>(
    first: u64,
    histories: usize,
    history: F,
) -> C
    requires { F.IsAlwaysCallable history }
{
    let mut counts = C::default();
    let mut seed = first;
    for _ in 0..histories {
        seed = history(&mut counts, seed);
    }
    counts
}

impl<V, const N: usize> Default for Row<V, N> {
    fn default() -> Self {
        Row {
            counts: [0; N],
            out_of_place: 0,
            first: None,
        }
    }
}

impl<V: PartialEq + Copy, const N: usize> Row<V, N> {
    // Adds to the count at a place. A place may come from a number that a model answered, and a wrong one has no count.
    pub(super) fn add(&mut self, place: usize, by: u64) {
        let count = self.counts.get_mut(place).unwrap_or(&mut self.out_of_place);
        *count = count.wrapping_add(by);
    }

    // Adds to the counts from a place on, one after the other.
    pub(super) fn add_all(&mut self, first: usize, by: &[u16]) {
        for (place, by) in (first..).zip(by) {
            self.add(place, u64::from(*by));
        }
    }

    // Counts a history.
    pub(super) fn history(&mut self) {
        self.add(0, 1);
    }

    // Counts an event by its kind, in the order that all rows have.
    pub(super) fn event(&mut self, kind: u8) {
        self.add(1, 1);
        self.add(2 + order(kind), 1);
    }

    // Counts a difference, if there is one, and keeps the first. The event stands at that place, from 0, of the last history that was counted.
    pub(super) fn hold(&mut self, event: u64, place: u64, one: V, other: V) {
        if one == other {
            return;
        }
        if self.first.is_none() {
            let history = self.counts.first().copied().unwrap_or(0);
            self.first = Some(Difference {
                history,
                place,
                event,
                one,
                other,
            });
        }
        if let Some(differences) = self.counts.last_mut() {
            *differences = differences.wrapping_add(1);
        }
    }
}
