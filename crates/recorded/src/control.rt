// csr.rs. The words are those of Csr.
use crate::list::Line;
use crate::told::Verdict;
use crate::{narrow, told};
use csr::{Csr, PrivMode};

#[derive(Default, Drop)]
pub(crate) struct Control {
    words: [u64; csr_list::WORDS],
}

impl Control {
    pub(crate) fn replay(&mut self, line: &Line) -> Verdict {
        let (told, left) = call(line, Csr { words: self.words });
        // The call that makes the state anew: the line's changes are to zeros.
        if line.function == 0 {
            *self = Control::default();
        }
        line.settle(
            told,
            &mut self.words,
            |words| words == left.words.as_slice(),
        )
    }
}

// 0: new; 1: words are set; 2: a read; 3: a write; 4: an interrupt choice; 5: a mode. The file after the call: only new and a write change it.
fn call(line: &Line, file: Csr) -> (Verdict, Csr) {
    let [a, b, c, _] = line.inputs();
    let told = match line.function {
        0 => return (line.says(0, &[0]), Csr::new()),
        1 => Verdict::Remark,
        2 => {
            let answer = file.read_register(narrow::word(a), PrivMode::from_bits(b));
            line.says(2, &told::reading(answer))
        }
        3 => {
            let written = file.write_register(narrow::word(a), b, PrivMode::from_bits(c));
            return (line.says(3, &told::acceptance(written.answer)), written.csr);
        }
        4 => line.says(1, &chosen(file.pending_interrupt(PrivMode::from_bits(a)))),
        5 => line.says(1, &[PrivMode::from_bits(a) as u64]),
        _ => Verdict::Unread,
    };
    (told, file)
}

// Whether there is an interrupt, and its bit.
fn chosen(answer: Option<u64>) -> [u64; 2] {
    match answer {
        Some(bit) => [1, bit],
        None => [0, 0],
    }
}
