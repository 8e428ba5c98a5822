// The registers, as 65 words: x0 to x31, pc, f0 to f31.
ghost use Rattle.std.specs.Prelude.{◌≡◌, length};
ghost use Rattle.answers.specs.Answers.{reading};
ghost use Rattle.answers.specs.Gave.{Gave};
ghost use Rattle.gpr.specs.Registers.{reset_gpr, read_x, read_f, read_f32, register_answer, write_x, write_f, write_f32, read_masked, write_masked};
ghost use Rattle.host.specs.Registers.{words_of, floats, with_floats};

use crate::given::give;
use answers::Refusal;

const WORDS: usize = 65;

const PC: usize = 32;

const FLOATS: usize = 33;

#[unsafe(no_mangle)]
pub extern "C" fn rv_gpr_new(regs: &mut [u64; WORDS], pc: u64)
    ensures { regs.new ≡ words_of (reset_gpr pc) }
{
    *regs = [u64::MAX; WORDS];
    regs[..PC].fill(0);
    regs[PC] = pc;
}

#[unsafe(no_mangle)]
pub extern "C" fn rv_gpr_read(regs: &[u64; WORDS], reg: usize, out: &mut u64) -> u32
    ensures { Gave (read_x regs.now reg) out.old result out.new }
{
    give(
        word_of(&regs[..PC], reg).map(|word| gpr::show(reg, word)),
        out,
    )
}

#[unsafe(no_mangle)]
pub extern "C" fn rv_gpr_write(regs: &mut [u64; WORDS], reg: usize, value: u64) -> u32
    ensures { (result ≡ (register_answer reg).number) × (regs.new ≡ write_x regs.old reg value) }
{
    // Not by `put`: x0 is accepted and left, so that a test of the number stands here all the same, and the form would be no plainer.
    if 31 < reg {
        return Refusal::Register.number();
    }
    if reg == 0 {
        return 0;
    }
    regs[reg] = value;
    0
}

#[unsafe(no_mangle)]
pub extern "C" fn rv_gpr_read_masked(regs: &[u64; WORDS], reg: u8) -> u64
    ensures { result ≡ read_masked regs.now reg }
{
    let at = (reg % 32) as usize;
    gpr::show(at, regs[at])
}

#[unsafe(no_mangle)]
pub extern "C" fn rv_gpr_write_masked(regs: &mut [u64; WORDS], reg: u8, value: u64)
    ensures { regs.new ≡ write_masked regs.old reg value }
{
    let at = (reg % 32) as usize;
    regs[at] = value;
    regs[0] = 0;
}

#[unsafe(no_mangle)]
pub extern "C" fn rv_gpr_read_f(regs: &[u64; WORDS], reg: usize, out: &mut u64) -> u32
    ensures { Gave (read_f (floats regs.now) reg) out.old result out.new }
{
    give(word_of(&regs[FLOATS..], reg), out)
}

#[unsafe(no_mangle)]
pub extern "C" fn rv_gpr_write_f(regs: &mut [u64; WORDS], reg: usize, value: u64) -> u32
    ensures { (result ≡ (register_answer reg).number) × (regs.new ≡ with_floats regs.old (write_f (floats regs.old) reg value)) }
{
    put(&mut regs[FLOATS..], reg, value)
}

#[unsafe(no_mangle)]
pub extern "C" fn rv_gpr_read_f32(regs: &[u64; WORDS], reg: usize, out: &mut u32) -> u32
    ensures { Gave (read_f32 (floats regs.now) reg) out.old result out.new }
{
    give(word_of(&regs[FLOATS..], reg).map(gpr::nan_unbox), out)
}

#[unsafe(no_mangle)]
pub extern "C" fn rv_gpr_write_f32(regs: &mut [u64; WORDS], reg: usize, value: u32) -> u32
    ensures { (result ≡ (register_answer reg).number) × (regs.new ≡ with_floats regs.old (write_f32 (floats regs.old) reg value)) }
{
    rv_gpr_write_f(regs, reg, gpr::nan_box(value))
}

// What register `reg` of the 32 of one kind holds.
fn word_of(regs: &[u64], reg: usize) -> Result<u64, Refusal>
    requires { length regs.now ≡ 32 }
    ensures { reading result ≡ read_f regs.now reg }
{
    regs.get(reg).copied().ok_or(Refusal::Register)
}

// Sets register `reg` of the 32 of one kind.
fn put(regs: &mut [u64], reg: usize, value: u64) -> u32
    requires { length regs.old ≡ 32 }
    ensures answer { result ≡ (register_answer reg).number }
    ensures regs { regs.new ≡ write_f regs.old reg value }
{
    if regs.len() <= reg {
        return Refusal::Register.number();
    }
    regs[reg] = value;
    0
}
