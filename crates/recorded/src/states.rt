// The states that the calls are made on.
use crate::control::Control;
use crate::list::Line;
use crate::memory::Memory;
use crate::registers::Registers;
use crate::told::Verdict;
use crate::translation::Translations;
use crate::{arithmetic, causes, fields};

// The words of each state stand here as the list says that they are. A call begins with them, and what it leaves is held to them, all of
// it: so the next call goes on from what the last one left, or from what it should have left.
#[derive(Default, Drop)]
pub(crate) struct States {
    registers: Registers,
    control: Control,
    memory: Memory,
    translations: Translations,
}

impl States {
    // What comes of a line. An empty one is not understood.
    pub(crate) fn replay(&mut self, text: &[u8]) -> Verdict {
        match Line::read(text) {
            Some(line) => self.call(&line),
            None => Verdict::Unread,
        }
    }

    fn call(&mut self, line: &Line) -> Verdict {
        match line.letter {
            b'#' => Verdict::Remark,
            b'g' => self.registers.replay(line),
            b'c' => self.control.replay(line),
            b'b' => self.memory.replay(line),
            b'm' => self.translations.replay(line),
            // The others are calls with no state: their lines end after the answer.
            _ if !line.is_whole() => Verdict::Unread,
            b't' => causes::replay(line),
            b'd' => fields::replay(line),
            b'e' => arithmetic::replay(line),
            _ => Verdict::Unread,
        }
    }
}
