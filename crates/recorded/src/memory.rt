// system_bus.rs. The words are the bytes of a memory; a call is made with the first of them, as many as its first input says.
use crate::list::Line;
use crate::told::Verdict;
use crate::{narrow, told};
use answers::Refusal;

const BYTES: usize = 4096;

#[derive(Default, Drop)]
pub(crate) struct Memory {
    words: [u64; BYTES],
}

impl Memory {
    pub(crate) fn replay(&mut self, line: &Line) -> Verdict {
        let mut bytes = [0; BYTES];
        hold(&mut bytes, &self.words);
        let told = call(line, &mut bytes);
        line.settle(told, &mut self.words, |words| is(&bytes, words))
    }
}

// With as many bytes as the line says. 0: words are set; 1 to 4: reads; 5 to 8: writes; 9: a load.
fn call(line: &Line, memory: &mut [u8]) -> Verdict {
    let [length, a, b, c] = line.inputs();
    let Some(memory) = memory.get_mut(..length as usize) else {
        return Verdict::Unread;
    };
    let read = |answer| line.says(2, &told::reading(answer));
    let written = |answer| line.says(3, &told::acceptance(answer));
    match line.function {
        0 => Verdict::Remark,
        1 => read(system_bus::read::<u8>(memory, a).map(u64::from)),
        2 => read(system_bus::read::<u16>(memory, a).map(u64::from)),
        3 => read(system_bus::read::<u32>(memory, a).map(u64::from)),
        4 => read(system_bus::read(memory, a)),
        5 => written(system_bus::write(memory, a, narrow::byte(b))),
        6 => written(system_bus::write(memory, a, narrow::half(b))),
        7 => written(system_bus::write(memory, a, narrow::word(b))),
        8 => written(system_bus::write(memory, a, b)),
        9 => {
            let loaded = load(memory, a as usize, b as usize, c);
            line.says(4, &told::acceptance(loaded))
        }
        _ => Verdict::Unread,
    }
}

// The bytes to load, up to four, are those of a number, the lowest first.
fn load(memory: &mut [u8], offset: usize, count: usize, value: u64) -> Result<(), Refusal> {
    let bytes = narrow::word(value).to_le_bytes();
    let bytes = bytes.get(..count).ok_or(Refusal::LoadRange)?;
    system_bus::load_at(memory, offset, bytes)
}

// The memory that these words are.
fn hold(memory: &mut [u8; BYTES], words: &[u64; BYTES]) {
    for (byte, word) in memory.iter_mut().zip(words) {
        *byte = narrow::byte(*word);
    }
}

// Whether the memory is these words. (All of them are looked at, without an early end, so that several are compared at once.)
fn is(memory: &[u8; BYTES], words: &[u64]) -> bool {
    let apart = memory.iter().zip(words).fold(
        0,
        |apart, (byte, word)| apart | (u64::from(*byte) ^ *word),
    );
    apart == 0
}
