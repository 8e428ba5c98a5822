// gpr.rs. The words are x0 to x31, pc, f0 to f31.
use crate::list::Line;
use crate::told::Verdict;
use crate::{narrow, told};
use gpr::{Gpr, Written};
use std::array;

const WORDS: usize = 65;

#[derive(Default, Drop)]
pub(crate) struct Registers {
    words: [u64; WORDS],
}

impl Registers {
    pub(crate) fn replay(&mut self, line: &Line) -> Verdict {
        let (told, left) = call(line, held(&self.words));
        // The call that makes the state anew: the line's changes are to zeros.
        if line.function == 0 {
            *self = Registers::default();
        }
        line.settle(
            told,
            &mut self.words,
            |words| words == words_of(&left).as_slice(),
        )
    }
}

// 0: new; 1: words are set; 2 to 5: reads; 6 to 9: writes. The registers after the call, which a read leaves as they are.
fn call(line: &Line, gpr: Gpr) -> (Verdict, Gpr) {
    let [a, b, ..] = line.inputs();
    let reg = a as usize;
    match line.function {
        0 => (line.says(1, &[0]), Gpr::new(a)),
        1 => (Verdict::Remark, gpr),
        2 => (line.says(1, &told::reading(gpr.read(reg))), gpr),
        3 => (line.says(1, &[0, gpr.read_masked(narrow::byte(a))]), gpr),
        4 => (line.says(1, &told::reading(gpr.read_f(reg))), gpr),
        5 => (
            line.says(1, &told::reading(gpr.read_f32(reg).map(u64::from))),
            gpr,
        ),
        6 => written(line, gpr.write(reg, b)),
        7 => (line.says(2, &[0]), gpr.write_masked(narrow::byte(a), b)),
        8 => written(line, gpr.write_f(reg, b)),
        9 => written(line, gpr.write_f32(reg, narrow::word(b))),
        _ => (Verdict::Unread, gpr),
    }
}

fn written(line: &Line, written: Written) -> (Verdict, Gpr) {
    (line.says(2, &told::acceptance(written.answer)), written.gpr)
}

// The registers that these words are.
fn held(words: &[u64; WORDS]) -> Gpr {
    Gpr {
        x: array::from_fn(|i| words[i]),
        pc: words[32],
        f: array::from_fn(|i| words[33 + i]),
    }
}

// The words that these registers are.
fn words_of(gpr: &Gpr) -> [u64; WORDS] {
    let mut words = [0; WORDS];
    words[..32].copy_from_slice(&gpr.x);
    words[32] = gpr.pc;
    words[33..].copy_from_slice(&gpr.f);
    words
}
