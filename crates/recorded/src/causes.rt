// trap.rs: the causes by number, in its order; then what a step comes to.
use crate::list::Line;
use crate::narrow;
use crate::told::Verdict;
use trap::{StepResult, TrapCause};

// 0 to 7: a cause; 8: a step that goes on; 9: one that traps, with the cause's number and the word; a: one that halts.
pub(crate) fn replay(line: &Line) -> Verdict {
    let [a, b, ..] = line.inputs();
    match line.function {
        8 => step(line, StepResult::Ok),
        9 => match cause_of(a, narrow::word(b)) {
            Some(cause) => step(line, StepResult::Trap(cause)),
            None => Verdict::Unread,
        },
        0xa => step(line, StepResult::Halt),
        number => match cause_of(number, narrow::word(a)) {
            Some(cause) => told(line, cause),
            None => Verdict::Unread,
        },
    }
}

// The cause of a number. (These are the list's own numbers, and the type another crate's: so this is no TryFrom.)
fn cause_of(number: u64, word: u32) -> Option<TrapCause> {
    match number {
        0 => Some(TrapCause::InstructionAddressMisaligned),
        1 => Some(TrapCause::IllegalInstruction(word)),
        2 => Some(TrapCause::Breakpoint),
        3 => Some(TrapCause::LoadAddressMisaligned),
        4 => Some(TrapCause::StoreAddressMisaligned),
        5 => Some(TrapCause::EcallFromUMode),
        6 => Some(TrapCause::EcallFromSMode),
        7 => Some(TrapCause::EcallFromMMode),
        _ => None,
    }
}

// The code, and the word where the cause carries one.
fn told(line: &Line, cause: TrapCause) -> Verdict {
    let code = cause.mcause_code();
    match word_of(cause) {
        Some(word) => line.says(1, &[code, word]),
        None => line.says(0, &[code]),
    }
}

// 0 Ok, 1 Trap with the cause's code and word, which is 0 where it carries none, 2 Halt.
fn step(line: &Line, step: StepResult) -> Verdict {
    match step {
        StepResult::Ok => line.says(0, &[0]),
        StepResult::Trap(cause) => {
            line.says(2, &[1, cause.mcause_code(), word_of(cause).unwrap_or(0)])
        }
        StepResult::Halt => line.says(0, &[2]),
    }
}

fn word_of(cause: TrapCause) -> Option<u64> {
    match cause {
        TrapCause::IllegalInstruction(word) => Some(word as u64),
        _ => None,
    }
}
