// Fields and immediates of an instruction word, and sign extension.
ghost use Rattle.std.specs.Prelude.{◌≡◌, ◌+◌, eqb};
ghost use Rattle.answers.specs.Bits.{bits};
ghost use Rattle.answers.specs.Gave.{Gave};
ghost use Rattle.decode.specs.Immediates.{imm_i, imm_s, imm_b, imm_u, imm_j};
ghost use Rattle.decode.specs.Extension.{sign_extended};

use crate::given::give;
use decode::{CompressedInstruction, Instruction};

#[unsafe(no_mangle)]
pub extern "C" fn rv_opcode(word: u32) -> u32
    ensures { result ≡ bits 6 0 word }
{
    Instruction(word).opcode()
}

#[unsafe(no_mangle)]
pub extern "C" fn rv_funct3(word: u32) -> u32
    ensures { result ≡ bits 14 12 word }
{
    Instruction(word).funct3()
}

#[unsafe(no_mangle)]
pub extern "C" fn rv_funct7(word: u32) -> u32
    ensures { result ≡ bits 31 25 word }
{
    Instruction(word).funct7()
}

#[unsafe(no_mangle)]
pub extern "C" fn rv_csr_addr(word: u32) -> u32
    ensures { result ≡ bits 31 20 word }
{
    Instruction(word).csr_addr()
}

#[unsafe(no_mangle)]
pub extern "C" fn rv_funct5(word: u32) -> u32
    ensures { result ≡ bits 31 27 word }
{
    Instruction(word).funct5()
}

#[unsafe(no_mangle)]
pub extern "C" fn rv_rd(word: u32) -> usize
    ensures { result ≡ bits 11 7 word }
{
    Instruction(word).rd()
}

#[unsafe(no_mangle)]
pub extern "C" fn rv_rs1(word: u32) -> usize
    ensures { result ≡ bits 19 15 word }
{
    Instruction(word).rs1()
}

#[unsafe(no_mangle)]
pub extern "C" fn rv_rs2(word: u32) -> usize
    ensures { result ≡ bits 24 20 word }
{
    Instruction(word).rs2()
}

#[unsafe(no_mangle)]
pub extern "C" fn rv_imm_i(word: u32) -> i64
    ensures { result ≡ imm_i word }
{
    Instruction(word).imm_i()
}

#[unsafe(no_mangle)]
pub extern "C" fn rv_imm_s(word: u32) -> i64
    ensures { result ≡ imm_s word }
{
    Instruction(word).imm_s()
}

#[unsafe(no_mangle)]
pub extern "C" fn rv_imm_b(word: u32) -> i64
    ensures { result ≡ imm_b word }
{
    Instruction(word).imm_b()
}

#[unsafe(no_mangle)]
pub extern "C" fn rv_imm_u(word: u32) -> i64
    ensures { result ≡ imm_u word }
{
    Instruction(word).imm_u()
}

#[unsafe(no_mangle)]
pub extern "C" fn rv_imm_j(word: u32) -> i64
    ensures { result ≡ imm_j word }
{
    Instruction(word).imm_j()
}

#[unsafe(no_mangle)]
pub extern "C" fn rv_aq(word: u32) -> bool
    ensures { result ≡ eqb (bits 26 26 word) 1 }
{
    Instruction(word).aq()
}

#[unsafe(no_mangle)]
pub extern "C" fn rv_rl(word: u32) -> bool
    ensures { result ≡ eqb (bits 25 25 word) 1 }
{
    Instruction(word).rl()
}

#[unsafe(no_mangle)]
pub extern "C" fn rv_c_quadrant(half: u16) -> u16
    ensures { result ≡ bits 1 0 half }
{
    CompressedInstruction(half).quadrant()
}

#[unsafe(no_mangle)]
pub extern "C" fn rv_c_funct3(half: u16) -> u16
    ensures { result ≡ bits 15 13 half }
{
    CompressedInstruction(half).funct3()
}

#[unsafe(no_mangle)]
pub extern "C" fn rv_c_rs2_prime(half: u16) -> usize
    ensures { result ≡ bits 4 2 half + 8 }
{
    CompressedInstruction(half).rs2_prime()
}

#[unsafe(no_mangle)]
pub extern "C" fn rv_c_rs1_prime(half: u16) -> usize
    ensures { result ≡ bits 9 7 half + 8 }
{
    CompressedInstruction(half).rs1_prime()
}

#[unsafe(no_mangle)]
pub extern "C" fn rv_c_rd(half: u16) -> usize
    ensures { result ≡ bits 11 7 half }
{
    CompressedInstruction(half).rd()
}

#[unsafe(no_mangle)]
pub extern "C" fn rv_c_rs2(half: u16) -> usize
    ensures { result ≡ bits 6 2 half }
{
    CompressedInstruction(half).rs2()
}

#[unsafe(no_mangle)]
pub extern "C" fn rv_sign_extend(value: i64, bits: u32, out: &mut i64) -> u32
    ensures { Gave (sign_extended value bits) out.old result out.new }
{
    give(decode::sign_extend(value, bits), out)
}
