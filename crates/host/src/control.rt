// The CSR file, as words in the order of the fields of csr.rs. A call touches the word that its address names, mideleg and mstatus.
ghost use Rattle.std.specs.Prelude.{◌≡◌};
ghost use Rattle.answers.specs.Gave.{Gave, Found};
ghost use Rattle.csr.specs.Modes.{mode_of};
ghost use Rattle.csr.specs.Registers.{reset_words, read_register, new_word, write_register, pending_in};

use crate::given::give;
use csr::{Csr, Hart, PrivMode};
use csr_list::{MIE_WORD, MIP_WORD, MISA_WORD, MSTATUS_WORD, Place};

#[unsafe(no_mangle)]
pub extern "C" fn rv_csr_new(csr: &mut [u64; csr_list::WORDS])
    ensures { csr.new ≡ reset_words }
{
    *csr = [0; csr_list::WORDS];
    csr[MSTATUS_WORD] = Csr::MSTATUS_RESET;
    csr[MISA_WORD] = Csr::MISA_RESET;
}

#[unsafe(no_mangle)]
pub extern "C" fn rv_csr_read(
    csr: &[u64; csr_list::WORDS],
    address: u32,
    privilege: u64,
    out: &mut u64,
) -> u32
    ensures { Gave (read_register csr.now address (mode_of privilege)) out.old result out.new }
{
    let Place { word, view } = csr_list::place_of(address);
    let hart = Hart::of(csr, PrivMode::from_bits(privilege));
    give(hart.read_word(view, csr[word]), out)
}

#[unsafe(no_mangle)]
pub extern "C" fn rv_csr_write(
    csr: &mut [u64; csr_list::WORDS],
    address: u32,
    value: u64,
    privilege: u64,
) -> u32
    ensures { (result ≡ (new_word csr.old address value (mode_of privilege)).number) × (csr.new ≡ write_register csr.old address value (mode_of privilege)) }
{
    let Place { word, view } = csr_list::place_of(address);
    let hart = Hart::of(csr, PrivMode::from_bits(privilege));
    let taken = hart.write_word(view, csr[word], value);
    give(taken, &mut csr[word])
}

#[unsafe(no_mangle)]
pub extern "C" fn rv_csr_pending(
    csr: &[u64; csr_list::WORDS],
    privilege: u64,
    out: &mut u64,
) -> bool
    ensures { Found (pending_in csr.now (mode_of privilege)) out.old result out.new }
{
    // Most calls end here, before the mode is made.
    if csr[MIP_WORD] & csr[MIE_WORD] == 0 {
        return false;
    }
    let hart = Hart::of(csr, PrivMode::from_bits(privilege));
    match hart.choose_interrupt(csr[MIP_WORD], csr[MIE_WORD]) {
        Some(bit) => {
            *out = bit;
            true
        }
        None => false,
    }
}
