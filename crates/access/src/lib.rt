// What is asked of a page, and whether its leaf entry allows it: the privilege checks, which mmu.rs leaves out.
#![tactic(auto)]

ghost use Rattle.std.specs.Prelude.{◌≡◌, ◌<◌, eqb};
ghost use Rattle.answers.specs.Bits.{bits};
ghost use Rattle.csr.specs.Modes.{mode_of, is_m};
ghost use Rattle.access.specs.Asked.{lends, effective_mode, access_of};
ghost use Rattle.access.specs.Allowed.{shared, opens, permits, marked, allows};
ghost use Rattle.access.specs.Plain.{plain};

use csr::{Csr, PrivMode};

#[derive(Clone, Copy)]
pub enum Kind {
    Fetch,
    Load,
    Store,
}

// What is asked for: the kind, and what is in force at the call, of which the mode is the effective one.
#[derive(Clone, Copy)]
pub struct Access {
    pub kind: Kind,
    pub mode: PrivMode,
    pub sum: bool,
    pub mxr: bool,
}

// Whether MPRV lends another mode. Kind, mode and mstatus are what an Access is made of, here and below, so they are no struct before it.
#[tactic(auto, using(csr::proofs::Tested::bit_17))]
fn is_lent(kind: Kind, mstatus: u64) -> bool
    ensures { result ≡ lends kind mstatus }
{
    match kind {
        Kind::Fetch => false, // always the hart's own
        Kind::Load | Kind::Store => mstatus & Csr::MSTATUS_MPRV != 0,
    }
}

// Whose mode counts: the one that MPP names, or the hart's own.
fn effective_mode(kind: Kind, mode: PrivMode, mstatus: u64) -> PrivMode
    ensures { result ≡ effective_mode kind mode mstatus }
{
    if is_lent(kind, mstatus) {
        PrivMode::from_bits(mstatus >> 11)
    } else {
        mode
    }
}

// Where the flags of a leaf entry stand.
const R: u32 = 1;

const W: u32 = 2;

const X: u32 = 3;

const U: u32 = 4;

const A: u32 = 6;

const D: u32 = 7;

fn has(leaf: u64, flag: u32) -> bool
    requires { flag < 64 }
    ensures { result ≡ eqb (bits flag flag leaf) 1 }
{
    (leaf >> flag) % 2 == 1
}

impl Access {
    // What a hart in this mode, with this mstatus, asks for.
    #[tactic(auto, using(csr::proofs::Tested::bit_18, csr::proofs::Tested::bit_19), unfolding(crate::specs::Asked::access_of))]
    pub fn new(kind: Kind, mode: PrivMode, mstatus: u64) -> Self
        ensures { result ≡ access_of kind mode mstatus }
    {
        Access {
            kind,
            mode: effective_mode(kind, mode, mstatus),
            sum: mstatus & Csr::MSTATUS_SUM != 0,
            mxr: mstatus & Csr::MSTATUS_MXR != 0,
        }
    }

    // M asks no table.
    pub fn is_machine(self) -> bool
        ensures { result ≡ is_m self.mode }
    {
        self.mode == PrivMode::M
    }

    // Whether a leaf allows it, by whose page it is, by what it may be used for and by its marks.
    #[tactic(auto, unfolding(crate::specs::Allowed::allows))]
    pub fn allows(self, leaf: u64) -> bool
        ensures { result ≡ allows self leaf }
    {
        self.is_open(leaf) && (self.is_permitted(leaf) && self.is_marked(leaf))
    }

    fn is_open(self, leaf: u64) -> bool
        ensures { result ≡ opens self leaf }
    {
        match self.mode {
            PrivMode::U => has(leaf, U),
            PrivMode::S => !has(leaf, U) || self.is_shared(),
            PrivMode::M => false,
        }
    }

    // A user's page, to S.
    fn is_shared(self) -> bool
        ensures { result ≡ shared self.kind self.sum }
    {
        match self.kind {
            Kind::Fetch => false, // whatever SUM is
            Kind::Load | Kind::Store => self.sum,
        }
    }

    fn is_permitted(self, leaf: u64) -> bool
        ensures { result ≡ permits self.kind self.mxr leaf }
    {
        match self.kind {
            Kind::Fetch => has(leaf, X),
            Kind::Load => has(leaf, R) || self.mxr && has(leaf, X),
            Kind::Store => has(leaf, W),
        }
    }

    // No entry is ever updated: without its mark, a page faults.
    fn is_marked(self, leaf: u64) -> bool
        ensures { result ≡ marked self.kind leaf }
    {
        match self.kind {
            Kind::Fetch | Kind::Load => has(leaf, A),
            Kind::Store => has(leaf, A) && has(leaf, D),
        }
    }
}

// Whether a leaf allows it whatever SUM and MXR are, to a hart whose own mode counts: the common case, as one comparison. The page's U and the
// mode's number make 1 where the page is the mode's own, U's number being 0 and S's 1; the kind's flag and marks are set; MPRV is clear.
// Each bit is cut out and weighed by hand, since a hit asks this, and a jump for each test took longer: docs/SPEED.md.
pub fn is_plain(kind: Kind, privilege: u64, mstatus: u64, leaf: u64) -> bool
    ensures { result ≡ plain kind (mode_of privilege) mstatus leaf }
{
    let user = (leaf >> 4) % 2 * 16;
    let accessed = (leaf >> 6) % 2 * 64;
    let written = (leaf >> 7) % 2 * 128;
    let hart = privilege % 4 * 16;
    let lent = (mstatus >> 17) % 2 * 0x2_0000;
    match kind {
        Kind::Fetch => user + ((leaf >> 3) % 2 * 8 + accessed) + hart == 88,
        Kind::Load => user + ((leaf >> 1) % 2 * 2 + accessed) + (hart + lent) == 82,
        Kind::Store => user + ((leaf >> 2) % 2 * 4 + (accessed + written)) + (hart + lent) == 212,
    }
}
