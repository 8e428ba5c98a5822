// The page tables in a memory, and where they lead.
ghost use Rattle.std.specs.Prelude.{◌≡◌, ◌<◌, true, length};
ghost use Rattle.system_bus.specs.Memory.{usable};
ghost use Rattle.walk.specs.Walk.{entry, place, trail, canonical, levels, trail_of};
ghost use Rattle.walk.specs.Walked.{stop_of, Traces};

use crate::entry::{Entry, Page};
use crate::leaf::{Leaf, Level};

// Where the tables lead, if to a leaf, and how many entries were read.
#[derive(Clone, Copy)]
pub struct Trace {
    pub leaf: Option<Leaf>,
    pub reads: u64,
}

// A memory that may be lent, so that no entry in it is refused.
#[derive(Clone, Copy)]
pub struct Tables<'a> {
    pub memory: &'a [u8],
    ghost lent: { usable (length memory.now) ≡ true },
}

impl Tables<'_> {
    // From the root that satp names; nowhere, and without a read, if nothing may be asked for.
    #[tactic(auto, unfolding(crate::specs::Walk::trail_of))]
    pub fn trace(self, address: u64, satp: u64) -> Trace
        ensures { Traces (trail_of self.entry.memory.now address satp) (stop_of result.leaf) result.reads }
    {
        if crate::is_walkable(satp) && is_canonical(address) {
            self.follow(Page::of(satp), address)
        } else {
            Trace {
                leaf: None,
                reads: 0,
            }
        }
    }

    // From one of them on.
    #[tactic(auto, using(crate::proofs::Steps::at_end, crate::proofs::Steps::on_stop, crate::proofs::Steps::on_pointer))]
    fn follow(self, root: Page, address: u64) -> Trace
        ensures { Traces (trail levels self.entry.memory.now root.number address) (stop_of result.leaf) result.reads }
    {
        let mut table = root;
        for number in (0..Level::COUNT).rev() {
            let level = Level { number };
            let e = self.entry(table, level.index(address));
            if !e.is_pointer() {
                return Trace {
                    leaf: Leaf::at(level, e),
                    reads: Level::COUNT - number,
                };
            }
            table = e.page();
        }
        Trace {
            leaf: None,
            reads: Level::COUNT,
        }
    }

    // The entry at an index of a table: its place is a multiple of 8, and the length usable.
    #[tactic(auto, using(crate::proofs::Places::entry_read))]
    fn entry(self, table: Page, index: u64) -> Entry
        requires { index < 512 }
        ensures { result.0 ≡ entry self.entry.memory.now (place table.number index) }
    {
        Entry(system_bus::read(self.memory, table.start() + index * 8).unwrap_or(Entry::INVALID))
    }
}

// Bits 63 to 39 are copies of bit 38.
#[tactic(auto, unfolding(crate::specs::Walk::canonical))]
fn is_canonical(address: u64) -> bool
    ensures { result ≡ canonical levels address }
{
    address >> 38 == 0 || address >> 38 == 0x3FF_FFFF
}
