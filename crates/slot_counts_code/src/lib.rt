// The slots of an image are counted by what they hold.

#![tactic(auto)]

mod void_records;

ghost use Rattle.std.specs.Prelude.{◌≡◌};
ghost use Rattle.layout.specs.Record.{Layout};
ghost use Rattle.slot_counts.specs.Count.{counts_in, count_end, count_result};
ghost use Rattle.slot_counts.specs.inner.Countable.{Countable};

use crate::void_records::void_removes;
use recovery::{Classes, Invalidations, Recovered};
use recovery_call_code::recover_in;
use slot_counts::{CountAnswer, SlotCounts};

// The counts of an image that recovery accepted, with the classes of its slots, its live count and the stores that open
// its void slots.
fn count_accepted(
    image: &[u8],
    l: usize,
    all: Classes,
    live: u32,
    invalidations: Invalidations,
) -> SlotCounts
    requires { Countable image.now l all live invalidations }
    ensures { result ≡ counts_in l image.now }
{
    let void = invalidations.count;
    let removes = void_removes(image, l, invalidations);
    SlotCounts {
        live,
        hidden: all.puts - (void - removes) - live,
        removes: all.removes - removes,
        void,
        broken: all.broken,
        empty: all.empty,
    }
}

// Count the slots, in layout l.
fn count_slots_in(image: &[u8], l: usize, heads: &mut [u32], next: &mut [u32]) -> CountAnswer
    requires { Layout l }
    ensures { count_end result heads.new next.new ≡ count_result l image.now heads.old next.old }
{
    let report = recover_in(image, l, heads, next);
    match report.answer.recovered {
        Recovered::Rebuilt(state) => CountAnswer::Counted(count_accepted(
            image,
            l,
            report.classes,
            state.live,
            report.answer.invalidations,
        )),
        Recovered::Refused { number, slot } => CountAnswer::Refused { number, slot },
    }
}

// How many slots of an accepted image are live, hidden puts, remove records, void, broken and empty; or recovery's
// refusal. Heads and next are those that recovery leaves, and a refusal changes neither.
pub fn count_slots(image: &[u8], heads: &mut [u32], next: &mut [u32]) -> CountAnswer
    ensures result { count_end result heads.new next.new ≡ count_result 1 image.now heads.old next.old }
{
    count_slots_in(image, 1, heads, next)
}

// The same in layout 2.
pub fn count_slots2(image: &[u8], heads: &mut [u32], next: &mut [u32]) -> CountAnswer
    ensures result { count_end result heads.new next.new ≡ count_result 2 image.now heads.old next.old }
{
    count_slots_in(image, 2, heads, next)
}
