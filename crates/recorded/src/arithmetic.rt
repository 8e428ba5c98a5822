// extensions.rs.
use crate::list::Line;
use crate::narrow;
use crate::told::Verdict;
use extensions::Amo;

// 0 to c: M; d to 15: A on words; 16 to 1e: A on doublewords.
pub(crate) fn replay(line: &Line) -> Verdict {
    let [a, b, ..] = line.inputs();
    let answer = match line.function {
        0 => extensions::div::<u32>(a, b),
        1 => extensions::rem::<u32>(a, b),
        2 => extensions::divu::<u32>(a, b),
        3 => extensions::remu::<u32>(a, b),
        4 => extensions::mul::<u64>(a, b),
        5 => extensions::mulh(a, b),
        6 => extensions::mulhu(a, b),
        7 => extensions::mulhsu(a, b),
        8 => extensions::div::<u64>(a, b),
        9 => extensions::divu::<u64>(a, b),
        0xa => extensions::rem::<u64>(a, b),
        0xb => extensions::remu::<u64>(a, b),
        0xc => extensions::mul::<u32>(a, b),
        _ => return atomic(line, a, b),
    };
    line.says(2, &[answer])
}

fn atomic(line: &Line, memory_value: u64, src: u64) -> Verdict {
    if let Some(op) = operation(line.function, 0xd) {
        let (old, new) = extensions::atomic(op, narrow::word(memory_value), src);
        return line.says(2, &[old, new as u64]);
    }
    if let Some(op) = operation(line.function, 0x16) {
        let (old, new) = extensions::atomic(op, memory_value, src);
        return line.says(2, &[old, new]);
    }
    Verdict::Unread
}

// The operation that a function is, where those of a width begin with the first. (These are the list's own numbers, and the type another crate's: so
// this is no TryFrom.)
fn operation(function: u64, first: u64) -> Option<Amo> {
    match function.checked_sub(first)? {
        0 => Some(Amo::Swap),
        1 => Some(Amo::Add),
        2 => Some(Amo::Xor),
        3 => Some(Amo::And),
        4 => Some(Amo::Or),
        5 => Some(Amo::Min),
        6 => Some(Amo::Max),
        7 => Some(Amo::Minu),
        8 => Some(Amo::Maxu),
        _ => None,
    }
}
