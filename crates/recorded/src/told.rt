// What the library answers, as a line would say it, and what comes of the line.
use answers::Refusal;

#[derive(Clone, Copy)]
pub(crate) enum Verdict {
    // No call: a remark, or a line that sets words.
    Remark,
    // There is no such call, or the line has not its columns.
    Unread,
    // The call answers what the line says, and leaves the words that it says,
    Same,
    // or it does not.
    Differs,
}

// Document 01's number and the value, which is 0 where the call is refused.
pub(crate) fn reading(answer: Result<u64, Refusal>) -> [u64; 2] {
    match answer {
        Ok(value) => [0, value],
        Err(refusal) => [number(refusal), 0],
    }
}

// Document 01's number.
pub(crate) fn acceptance(answer: Result<(), Refusal>) -> [u64; 1] {
    match answer {
        Ok(()) => [0],
        Err(refusal) => [number(refusal)],
    }
}

pub(crate) fn number(refusal: Refusal) -> u64 {
    refusal.number() as u64
}
