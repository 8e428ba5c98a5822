// A leaf entry, and what it maps.
ghost use Rattle.std.specs.Prelude.{◌≡◌, ◌^◌, ◌<◌};
ghost use Rattle.walk.specs.Entries.{aligned};
ghost use Rattle.walk.specs.Walk.{offset_bits, index_at, stop_at, target, levels};

use crate::entry::Entry;

// A level of the tables, from 0 up.
#[derive(Clone, Copy)]
pub struct Level {
    pub number: u64,
    ghost below: { number < levels },
}

impl Level {
    // How many there are.
    pub const COUNT: u64 = 3;

    // Where an address's entry stands in a table.
    #[tactic(auto, unfolding(crate::specs::Walk::index_at))]
    pub fn index(self, address: u64) -> u64
        ensures { (result ≡ index_at self.number address) × (result < 512) }
    {
        (address >> (9 * self.number + 12)) % 512
    }

    // How many bytes a leaf maps: a page, or a superpage.
    fn size(self) -> u64
        ensures { result ≡ 2 ^ offset_bits self.number }
    {
        1 << (9 * self.number + 12)
    }
}

// A leaf entry, and the level at which it stands.
#[derive(Clone, Copy)]
pub struct Leaf {
    pub level: Level,
    pub entry: Entry,
}

impl Leaf {
    ghost use Rattle.walk.specs.Walked.{stop_of};

    // An entry that leads on to no table, if it is a leaf.
    pub fn at(level: Level, entry: Entry) -> Option<Self>
        ensures { stop_of result ≡ stop_at level.number entry.0 }
    {
        (entry.is_valid() && entry.is_leaf()).then_some(Leaf { level, entry })
    }

    // The address that it leads to.
    pub fn target(self, address: u64) -> u64
        ensures { result ≡ target self.level.number self.entry.0 address }
    {
        self.entry
            .page()
            .start()
            .wrapping_add(address % self.level.size())
    }

    #[tactic(auto, using(crate::proofs::Sizes::page_aligned), unfolding(crate::specs::Entries::aligned))]
    pub fn is_aligned(self) -> bool
        ensures { result ≡ aligned self.level.number self.entry.0 }
    {
        self.entry.page().start() % self.level.size() == 0
    }
}
