// M and A arithmetic.
ghost use Rattle.std.specs.Prelude.{◌≡◌};
ghost use Rattle.extensions.specs.Multiply.{mul_of, mulh_of, mulhu_of, mulhsu_of};
ghost use Rattle.extensions.specs.Divide.{div_of, divu_of, rem_of, remu_of};
ghost use Rattle.host.specs.Pairs.{words};
ghost use Rattle.extensions.specs.Atomic.{amo};

use extensions::{Amo, Operand};

#[unsafe(no_mangle)]
pub extern "C" fn rv_mul(lhs: u64, rhs: u64) -> u64
    ensures { result ≡ mul_of 64 lhs rhs }
{
    extensions::mul::<u64>(lhs, rhs)
}

#[unsafe(no_mangle)]
pub extern "C" fn rv_mulh(lhs: u64, rhs: u64) -> u64
    ensures { result ≡ mulh_of lhs rhs }
{
    extensions::mulh(lhs, rhs)
}

#[unsafe(no_mangle)]
pub extern "C" fn rv_mulhu(lhs: u64, rhs: u64) -> u64
    ensures { result ≡ mulhu_of lhs rhs }
{
    extensions::mulhu(lhs, rhs)
}

#[unsafe(no_mangle)]
pub extern "C" fn rv_mulhsu(lhs: u64, rhs: u64) -> u64
    ensures { result ≡ mulhsu_of lhs rhs }
{
    extensions::mulhsu(lhs, rhs)
}

#[unsafe(no_mangle)]
pub extern "C" fn rv_div(lhs: u64, rhs: u64) -> u64
    ensures { result ≡ div_of 64 lhs rhs }
{
    extensions::div::<u64>(lhs, rhs)
}

#[unsafe(no_mangle)]
pub extern "C" fn rv_divu(lhs: u64, rhs: u64) -> u64
    ensures { result ≡ divu_of 64 lhs rhs }
{
    extensions::divu::<u64>(lhs, rhs)
}

#[unsafe(no_mangle)]
pub extern "C" fn rv_rem(lhs: u64, rhs: u64) -> u64
    ensures { result ≡ rem_of 64 lhs rhs }
{
    extensions::rem::<u64>(lhs, rhs)
}

#[unsafe(no_mangle)]
pub extern "C" fn rv_remu(lhs: u64, rhs: u64) -> u64
    ensures { result ≡ remu_of 64 lhs rhs }
{
    extensions::remu::<u64>(lhs, rhs)
}

#[unsafe(no_mangle)]
pub extern "C" fn rv_mulw(lhs: u64, rhs: u64) -> u64
    ensures { result ≡ mul_of 32 lhs rhs }
{
    extensions::mul::<u32>(lhs, rhs)
}

#[unsafe(no_mangle)]
pub extern "C" fn rv_divw(lhs: u64, rhs: u64) -> u64
    ensures { result ≡ div_of 32 lhs rhs }
{
    extensions::div::<u32>(lhs, rhs)
}

#[unsafe(no_mangle)]
pub extern "C" fn rv_divuw(lhs: u64, rhs: u64) -> u64
    ensures { result ≡ divu_of 32 lhs rhs }
{
    extensions::divu::<u32>(lhs, rhs)
}

#[unsafe(no_mangle)]
pub extern "C" fn rv_remw(lhs: u64, rhs: u64) -> u64
    ensures { result ≡ rem_of 32 lhs rhs }
{
    extensions::rem::<u32>(lhs, rhs)
}

#[unsafe(no_mangle)]
pub extern "C" fn rv_remuw(lhs: u64, rhs: u64) -> u64
    ensures { result ≡ remu_of 32 lhs rhs }
{
    extensions::remu::<u32>(lhs, rhs)
}

#[unsafe(no_mangle)]
pub extern "C" fn rv_amoswap_w(memory_value: u32, src: u64, out: &mut [u64; 2])
    ensures { out.new ≡ words (amo 32 Amo.Swap memory_value src) }
{
    amo(Amo::Swap, memory_value, src, out)
}

#[unsafe(no_mangle)]
pub extern "C" fn rv_amoadd_w(memory_value: u32, src: u64, out: &mut [u64; 2])
    ensures { out.new ≡ words (amo 32 Amo.Add memory_value src) }
{
    amo(Amo::Add, memory_value, src, out)
}

#[unsafe(no_mangle)]
pub extern "C" fn rv_amoxor_w(memory_value: u32, src: u64, out: &mut [u64; 2])
    ensures { out.new ≡ words (amo 32 Amo.Xor memory_value src) }
{
    amo(Amo::Xor, memory_value, src, out)
}

#[unsafe(no_mangle)]
pub extern "C" fn rv_amoand_w(memory_value: u32, src: u64, out: &mut [u64; 2])
    ensures { out.new ≡ words (amo 32 Amo.And memory_value src) }
{
    amo(Amo::And, memory_value, src, out)
}

#[unsafe(no_mangle)]
pub extern "C" fn rv_amoor_w(memory_value: u32, src: u64, out: &mut [u64; 2])
    ensures { out.new ≡ words (amo 32 Amo.Or memory_value src) }
{
    amo(Amo::Or, memory_value, src, out)
}

#[unsafe(no_mangle)]
pub extern "C" fn rv_amomin_w(memory_value: u32, src: u64, out: &mut [u64; 2])
    ensures { out.new ≡ words (amo 32 Amo.Min memory_value src) }
{
    amo(Amo::Min, memory_value, src, out)
}

#[unsafe(no_mangle)]
pub extern "C" fn rv_amomax_w(memory_value: u32, src: u64, out: &mut [u64; 2])
    ensures { out.new ≡ words (amo 32 Amo.Max memory_value src) }
{
    amo(Amo::Max, memory_value, src, out)
}

#[unsafe(no_mangle)]
pub extern "C" fn rv_amominu_w(memory_value: u32, src: u64, out: &mut [u64; 2])
    ensures { out.new ≡ words (amo 32 Amo.Minu memory_value src) }
{
    amo(Amo::Minu, memory_value, src, out)
}

#[unsafe(no_mangle)]
pub extern "C" fn rv_amomaxu_w(memory_value: u32, src: u64, out: &mut [u64; 2])
    ensures { out.new ≡ words (amo 32 Amo.Maxu memory_value src) }
{
    amo(Amo::Maxu, memory_value, src, out)
}

#[unsafe(no_mangle)]
pub extern "C" fn rv_amoswap_d(memory_value: u64, src: u64, out: &mut [u64; 2])
    ensures { out.new ≡ words (amo 64 Amo.Swap memory_value src) }
{
    amo(Amo::Swap, memory_value, src, out)
}

#[unsafe(no_mangle)]
pub extern "C" fn rv_amoadd_d(memory_value: u64, src: u64, out: &mut [u64; 2])
    ensures { out.new ≡ words (amo 64 Amo.Add memory_value src) }
{
    amo(Amo::Add, memory_value, src, out)
}

#[unsafe(no_mangle)]
pub extern "C" fn rv_amoxor_d(memory_value: u64, src: u64, out: &mut [u64; 2])
    ensures { out.new ≡ words (amo 64 Amo.Xor memory_value src) }
{
    amo(Amo::Xor, memory_value, src, out)
}

#[unsafe(no_mangle)]
pub extern "C" fn rv_amoand_d(memory_value: u64, src: u64, out: &mut [u64; 2])
    ensures { out.new ≡ words (amo 64 Amo.And memory_value src) }
{
    amo(Amo::And, memory_value, src, out)
}

#[unsafe(no_mangle)]
pub extern "C" fn rv_amoor_d(memory_value: u64, src: u64, out: &mut [u64; 2])
    ensures { out.new ≡ words (amo 64 Amo.Or memory_value src) }
{
    amo(Amo::Or, memory_value, src, out)
}

#[unsafe(no_mangle)]
pub extern "C" fn rv_amomin_d(memory_value: u64, src: u64, out: &mut [u64; 2])
    ensures { out.new ≡ words (amo 64 Amo.Min memory_value src) }
{
    amo(Amo::Min, memory_value, src, out)
}

#[unsafe(no_mangle)]
pub extern "C" fn rv_amomax_d(memory_value: u64, src: u64, out: &mut [u64; 2])
    ensures { out.new ≡ words (amo 64 Amo.Max memory_value src) }
{
    amo(Amo::Max, memory_value, src, out)
}

#[unsafe(no_mangle)]
pub extern "C" fn rv_amominu_d(memory_value: u64, src: u64, out: &mut [u64; 2])
    ensures { out.new ≡ words (amo 64 Amo.Minu memory_value src) }
{
    amo(Amo::Minu, memory_value, src, out)
}

#[unsafe(no_mangle)]
pub extern "C" fn rv_amomaxu_d(memory_value: u64, src: u64, out: &mut [u64; 2])
    ensures { out.new ≡ words (amo 64 Amo.Maxu memory_value src) }
{
    amo(Amo::Maxu, memory_value, src, out)
}

// What is returned, then the new memory value.
fn amo<T: Operand>(op: Amo, memory_value: T, src: u64, out: &mut [u64; 2])
    ensures { out.new ≡ words (amo T.bits op (T.value memory_value) src) }
{
    let (old, new) = extensions::atomic(op, memory_value, src);
    *out = [old, new.unsigned()];
}
