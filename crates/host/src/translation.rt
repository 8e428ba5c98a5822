// The translation state, as words: crate mmu_words has the layout, and the work.
ghost use Rattle.std.specs.Prelude.{◌≡◌};
ghost use Rattle.csr.specs.Modes.{mode_of};
ghost use Rattle.mmu.specs.Answers.{translation};
ghost use Rattle.mmu.specs.Cache.{call_of, readable};
ghost use Rattle.access.specs.declared.Kind.TheVariants.{Fetch, Load, Store};
ghost use Rattle.mmu_words.specs.Words.{new_words, flushed_words, GavePair, Translates};

use access::Kind;
use mmu_words::Asked;

#[unsafe(no_mangle)]
pub extern "C" fn rv_mmu_new(mmu: &mut [u64; mmu_words::WORDS])
    ensures { mmu.new ≡ new_words }
{
    mmu_words::new(mmu)
}

#[unsafe(no_mangle)]
pub extern "C" fn rv_flush(mmu: &mut [u64; mmu_words::WORDS])
    ensures { mmu.new ≡ flushed_words mmu.old }
{
    mmu_words::flush(mmu)
}

#[unsafe(no_mangle)]
pub extern "C" fn rv_translate_fetch(
    mmu: &mut [u64; mmu_words::WORDS],
    memory: &[u8],
    address: u64,
    satp: u64,
    privilege: u64,
    mstatus: u64,
    out: &mut [u64; 2],
) -> u32
    ensures { Translates (call_of Fetch memory.now address satp (mode_of privilege) mstatus) mmu.old out.old result mmu.new out.new }
{
    let asked = Asked {
        kind: Kind::Fetch,
        memory,
        address,
        satp,
        privilege,
        mstatus,
    };
    mmu_words::translate(mmu, asked, out)
}

#[unsafe(no_mangle)]
pub extern "C" fn rv_translate_load(
    mmu: &mut [u64; mmu_words::WORDS],
    memory: &[u8],
    address: u64,
    satp: u64,
    privilege: u64,
    mstatus: u64,
    out: &mut [u64; 2],
) -> u32
    ensures { Translates (call_of Load memory.now address satp (mode_of privilege) mstatus) mmu.old out.old result mmu.new out.new }
{
    let asked = Asked {
        kind: Kind::Load,
        memory,
        address,
        satp,
        privilege,
        mstatus,
    };
    mmu_words::translate(mmu, asked, out)
}

#[unsafe(no_mangle)]
pub extern "C" fn rv_translate_store(
    mmu: &mut [u64; mmu_words::WORDS],
    memory: &[u8],
    address: u64,
    satp: u64,
    privilege: u64,
    mstatus: u64,
    out: &mut [u64; 2],
) -> u32
    ensures { Translates (call_of Store memory.now address satp (mode_of privilege) mstatus) mmu.old out.old result mmu.new out.new }
{
    let asked = Asked {
        kind: Kind::Store,
        memory,
        address,
        satp,
        privilege,
        mstatus,
    };
    mmu_words::translate(mmu, asked, out)
}

#[unsafe(no_mangle)]
pub extern "C" fn rv_translate_readable(
    memory: &[u8],
    address: u64,
    satp: u64,
    privilege: u64,
    mstatus: u64,
    out: &mut [u64; 2],
) -> u32
    ensures { GavePair (translation (readable (call_of Load memory.now address satp (mode_of privilege) mstatus))) out.old result out.new }
{
    let asked = Asked {
        kind: Kind::Load,
        memory,
        address,
        satp,
        privilege,
        mstatus,
    };
    mmu_words::translate_readable(asked, out)
}
