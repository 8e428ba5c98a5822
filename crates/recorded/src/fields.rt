// decode.rs.
use crate::list::Line;
use crate::narrow;
use crate::told::Verdict;
use decode::{CompressedInstruction, Instruction};

// 0 to 9: fields of a word; a to e: its immediates; f to 14: fields of a halfword; 15: sign extension. A signed one is given by its bits.
pub(crate) fn replay(line: &Line) -> Verdict {
    let [a, b, ..] = line.inputs();
    let word = Instruction(narrow::word(a));
    let halfword = CompressedInstruction(narrow::half(a));
    let field = match line.function {
        0 => word.opcode() as u64,
        1 => word.rd() as u64,
        2 => word.rs1() as u64,
        3 => word.rs2() as u64,
        4 => word.funct3() as u64,
        5 => word.funct7() as u64,
        6 => word.csr_addr() as u64,
        7 => word.funct5() as u64,
        8 => word.aq() as u64,
        9 => word.rl() as u64,
        0xa => word.imm_i().cast_unsigned(),
        0xb => word.imm_s().cast_unsigned(),
        0xc => word.imm_b().cast_unsigned(),
        0xd => word.imm_u().cast_unsigned(),
        0xe => word.imm_j().cast_unsigned(),
        0xf => halfword.quadrant() as u64,
        0x10 => halfword.funct3() as u64,
        0x11 => halfword.rs2_prime() as u64,
        0x12 => halfword.rs1_prime() as u64,
        0x13 => halfword.rd() as u64,
        0x14 => halfword.rs2() as u64,
        0x15 => {
            return match decode::sign_extend(a.cast_signed(), narrow::word(b)) {
                Ok(value) => line.says(2, &[value.cast_unsigned()]),
                Err(_) => Verdict::Unread,
            };
        }
        _ => return Verdict::Unread,
    };
    line.says(1, &[field])
}
