// A page table entry, and the page that it names.
ghost use Rattle.std.specs.Prelude.{◌≡◌, ◌*◌, ◌%◌, ◌^◌, ◌<◌, not, ◌&&◌};
ghost use Rattle.access.specs.Flags.{is_r, is_w};
ghost use Rattle.walk.specs.Entries.{ppn, valid, leaf, pointer};

// A physical page, as an entry or satp names it: by 44 bits.
#[derive(Clone, Copy)]
pub struct Page {
    pub number: u64,
    ghost fits: { number < 2 ^ 44 },
}

impl Page {
    // The one in a word's low bits.
    pub fn of(word: u64) -> Self
        ensures { result.number ≡ word % 2 ^ 44 }
    {
        Page {
            number: word % 0x1000_0000_0000,
        }
    }

    // Its first byte.
    pub fn start(self) -> u64
        ensures { result ≡ self.number * 4096 }
    {
        self.number * 4096
    }
}

#[derive(Clone, Copy)]
pub struct Entry(pub u64);

impl Entry {
    // It leads nowhere: V is clear.
    pub const INVALID: u64 = 0;

    // V, and nothing that is reserved.
    #[tactic(auto, unfolding(crate::specs::Entries::valid))]
    pub fn is_valid(self) -> bool
        ensures { result ≡ valid self.0 }
    {
        self.0 % 2 == 1 && !self.is_write_only() && self.0 >> 54 == 0
    }

    // W without R. (Here and below two flags are each tested where they stand: a shared test of a place, as access has one, would be no plainer.)
    fn is_write_only(self) -> bool
        ensures { result ≡ (is_w self.0 && not (is_r self.0)) }
    {
        (self.0 >> 2) % 2 == 1 && (self.0 >> 1) % 2 != 1
    }

    #[tactic(auto, unfolding(crate::specs::Entries::leaf))]
    pub fn is_leaf(self) -> bool
        ensures { result ≡ leaf self.0 }
    {
        (self.0 >> 1) % 2 == 1 || (self.0 >> 3) % 2 == 1
    }

    // It leads on to the next table: of V, R, W and X it has V alone.
    #[tactic(auto, unfolding(crate::specs::Entries::leaf, crate::specs::Entries::valid))]
    pub fn is_pointer(self) -> bool
        ensures { result ≡ pointer self.0 }
    {
        self.0 % 16 == 1 && self.0 >> 54 == 0
    }

    pub fn page(self) -> Page
        ensures { result.number ≡ ppn self.0 }
    {
        Page::of(self.0 >> 10)
    }
}
