// mmu.rs. The words are the epoch; page, result page, satp and leaf entry of the load shortcut, and of the store shortcut; then the slots, each tag,
// result page, leaf entry and epoch. The tables stand in a memory; a call is made with its first bytes, as many as its first input says, and with the
// privilege and mstatus that a line before it told.
use crate::list::Line;
use crate::told::Verdict;
use crate::{narrow, told};
use access::Kind;
use csr::PrivMode;
use mmu::{Arrival, Call, Failure, Mmu, SLOTS, Shortcut, TlbEntry, Translated, Translation};
use std::array;
use walk::{PhysPage, VirtPage};

const WORDS: usize = 9 + 4 * SLOTS;

const BYTES: usize = 32768;

#[derive(Default, Drop)]
pub(crate) struct Translations {
    words: [u64; WORDS],
    tables: [u8; BYTES],
    privilege: u64,
    mstatus: u64,
}

impl Translations {
    // 0: new, over a memory of zeros; 1: words are set; 2: a table entry is stored; 3: a flush; 4 to 7: translations; 8: privilege and mstatus
    // of those that follow.
    pub(crate) fn replay(&mut self, line: &Line) -> Verdict {
        match line.function {
            2 | 8 if !line.has(2, 0) || !line.is_whole() => Verdict::Unread,
            2 => self.store(line),
            8 => self.enter(line),
            _ => self.translate(line),
        }
    }

    fn store(&mut self, line: &Line) -> Verdict {
        let [address, entry, ..] = line.inputs();
        match system_bus::write(&mut self.tables, address, entry) {
            Ok(()) => Verdict::Remark,
            Err(_) => Verdict::Unread,
        }
    }

    fn enter(&mut self, line: &Line) -> Verdict {
        [self.privilege, self.mstatus, ..] = line.inputs();
        Verdict::Remark
    }

    // (Not set into its callers: so the state and its copies have room on the stack while such a call lasts, and not while the list does.)
    #[inline(never)]
    fn translate(&mut self, line: &Line) -> Verdict {
        let (answer, left) = self.call(line);
        let told = match line.function {
            0 | 3 => line.says(0, &[0]),
            1 => Verdict::Remark,
            4..=7 => line.says(3, &answer),
            _ => Verdict::Unread,
        };
        // The call that makes the state anew: the line's changes are to zeros.
        if line.function == 0 {
            self.words = [0; WORDS];
            self.tables = [0; BYTES];
        }
        line.settle(told, &mut self.words, |words| is(&left, words))
    }

    // What a call answers, with as many bytes of memory as the line says, and the state that it leaves. One that answers nothing tells zeros.
    fn call(&self, line: &Line) -> ([u64; 3], Mmu) {
        let [length, address, satp, _] = line.inputs();
        let mode = PrivMode::from_bits(self.privilege);
        let mmu = held(&self.words);
        let Some(memory) = self.tables.get(..length as usize) else {
            return ([0; 3], mmu);
        };
        match line.function {
            0 => ([0; 3], Mmu::new()),
            3 => ([0; 3], mmu.flush()),
            7 => {
                let answer = Mmu::translate_readable(memory, address, satp, mode, self.mstatus);
                (columns(answer), mmu)
            }
            function => match kind_of(function) {
                Some(kind) => {
                    let call = Call::new(kind, memory, address, satp, mode, self.mstatus);
                    translated(mmu.translate(call))
                }
                None => ([0; 3], mmu),
            },
        }
    }
}

// What a translation is for. (So one call stands for all three, as each would have room of its own on the stack for the state that it leaves.)
fn kind_of(function: u64) -> Option<Kind> {
    match function {
        4 => Some(Kind::Fetch),
        5 => Some(Kind::Load),
        6 => Some(Kind::Store),
        _ => None,
    }
}

fn translated(translated: Translated) -> ([u64; 3], Mmu) {
    (columns(translated.answer), translated.mmu)
}

// Document 01's number; the address found, or the one that was asked for; the table entries read.
fn columns(answer: Translation) -> [u64; 3] {
    match answer {
        Ok(Arrival { address, reads }) => [0, address, reads],
        Err(Failure::Fault { fault, reads }) => [fault.mcause(), fault.tval(), reads],
        Err(Failure::Refused(refusal)) => [told::number(refusal), 0, 0],
    }
}

// The state that these words are, by the list's own layout: the door keeps its to itself.
fn held(words: &[u64; WORDS]) -> Mmu {
    let (entries, _) = words[1..].as_chunks();
    Mmu {
        tlb: array::from_fn(|i| slot(entries[2 + i])),
        epoch: narrow::word(words[0]),
        load: shortcut(entries[0]),
        store: shortcut(entries[1]),
    }
}

// Whether this state is these words. (They are held to it where they stand: the words of the state would be one more array of its size.)
fn is(mmu: &Mmu, words: &[u64]) -> bool {
    let [epoch, entries @ ..] = words else {
        return false;
    };
    let (entries, _) = entries.as_chunks();
    let [load, store, slots @ ..] = entries else {
        return false;
    };
    *epoch == mmu.epoch as u64
        && *load == shortcut_words(&mmu.load)
        && *store == shortcut_words(&mmu.store)
        && slots
            .iter()
            .zip(&mmu.tlb)
            .all(|(entry, slot)| *entry == slot_words(slot))
}

fn slot([tag, frame, leaf, epoch]: [u64; 4]) -> TlbEntry {
    TlbEntry {
        tag: VirtPage(tag),
        frame: PhysPage(frame),
        leaf,
        epoch: narrow::word(epoch),
    }
}

fn shortcut([page, frame, satp, leaf]: [u64; 4]) -> Shortcut {
    Shortcut {
        page: VirtPage(page),
        frame: PhysPage(frame),
        satp,
        leaf,
    }
}

fn shortcut_words(shortcut: &Shortcut) -> [u64; 4] {
    [
        shortcut.page.0,
        shortcut.frame.0,
        shortcut.satp,
        shortcut.leaf,
    ]
}

fn slot_words(slot: &TlbEntry) -> [u64; 4] {
    [slot.tag.0, slot.frame.0, slot.leaf, slot.epoch as u64]
}
