// The list: text, a line for each answer. A line is a letter, the number of a function, its inputs, '=' and what it answers; of a call on
// a state then ';' and the words that it changed, each by its place and its new value. All numbers are hexadecimal.
use crate::told::Verdict;
use std::{array, iter};

// A line. Of the columns that it may have, those that are there come first. The function is a number, as the text has it: a module's calls take and
// give different things, so that a match in each is plainer than closures or a table.
#[derive(Clone, Copy)]
pub(crate) struct Line<'a> {
    pub letter: u8,
    pub function: u64,
    inputs: [Option<u64>; 4],
    answers: [Option<u64>; 3],
    changes: Columns<'a>,
}

impl<'a> Line<'a> {
    // An empty line has not even a letter.
    pub(crate) fn read(text: &'a [u8]) -> Option<Self> {
        let line = text.strip_suffix(b"\n").unwrap_or(text);
        let (letter, rest) = line.split_first()?;
        let mut columns = Columns(rest);
        let function = columns.digits().unwrap_or(0);
        let inputs = columns.numbers();
        columns.skip(b" =");
        let answers = columns.numbers();
        Some(Line {
            letter: *letter,
            function,
            inputs,
            answers,
            changes: columns,
        })
    }

    // An input that is not there is 0.
    pub(crate) fn inputs(&self) -> [u64; 4] {
        self.inputs.map(|column| column.unwrap_or(0))
    }

    // Whether nothing follows the answer.
    pub(crate) fn is_whole(&self) -> bool {
        self.changes.is_end()
    }

    // Whether there are so many inputs and so many answers.
    pub(crate) fn has(&self, inputs: usize, answers: usize) -> bool {
        count(&self.inputs) == inputs && count(&self.answers) == answers
    }

    // Whether these are its answers, of which there are as many.
    fn tells(&self, answers: &[u64]) -> bool {
        self.answers
            .iter()
            .zip(answers)
            .all(|(column, answer)| *column == Some(*answer))
    }

    // What comes of a line whose call takes so many inputs and answers this.
    pub(crate) fn says(&self, inputs: usize, answers: &[u64]) -> Verdict {
        if !self.has(inputs, answers.len()) {
            Verdict::Unread
        } else if self.tells(answers) {
            Verdict::Same
        } else {
            Verdict::Differs
        }
    }

    // What comes of a line on a state, whose call tells this. The line has to be understood to its end. Where the call left other words than the
    // line says, it tells something else than the line. A line that sets words has no columns.
    pub(crate) fn settle<F: Fn(&[u64]) -> bool>(
        &self,
        told: Verdict,
        words: &mut [u64],
        is_left: F,
    ) -> Verdict
        requires { F.IsAlwaysCallable is_left }
    {
        if self.change(words).is_none() {
            return Verdict::Unread;
        }
        match told {
            Verdict::Remark if self.has(0, 0) => Verdict::Remark,
            Verdict::Remark => Verdict::Unread,
            _ if !is_left(words) => Verdict::Differs,
            _ => told,
        }
    }

    // Puts the words that a line says were changed where they belong. Whether the line then ends: it does where it names words that there are,
    // and no more than there are.
    fn change(&self, words: &mut [u64]) -> Option<()> {
        let mut changes = self.changes;
        changes.skip(b" ;");
        for (place, value) in iter::from_fn(|| changes.pair()).take(words.len()) {
            *words.get_mut(place as usize)? = value;
        }
        changes.is_end().then_some(())
    }
}

// (A sum, and no filter: so few columns are counted without a jump.)
fn count<const N: usize>(columns: &[Option<u64>; N]) -> usize {
    columns.iter().fold(0, |count: usize, column| {
        count.wrapping_add(column.is_some() as usize)
    })
}

// What is left of a line.
#[derive(Clone, Copy)]
struct Columns<'a>(&'a [u8]);

impl Columns<'_> {
    fn is_end(&self) -> bool {
        self.0.is_empty()
    }

    // Goes past a sign, if it is there.
    fn skip(&mut self, sign: &[u8]) {
        if let Some(rest) = self.0.strip_prefix(sign) {
            self.0 = rest;
        }
    }

    fn numbers<const N: usize>(&mut self) -> [Option<u64>; N] {
        array::from_fn(|_| self.number())
    }

    fn pair(&mut self) -> Option<(u64, u64)> {
        let mut columns = *self;
        let pair = (columns.number()?, columns.number()?);
        *self = columns;
        Some(pair)
    }

    // The number after a space.
    fn number(&mut self) -> Option<u64> {
        let mut columns = Columns(self.0.strip_prefix(b" ")?);
        let number = columns.digits()?;
        *self = columns;
        Some(number)
    }

    // As many digits as there are, or as there is room for. (Nothing is counted: the slice is consumed, and a byte that is no digit stays in it.)
    fn digits(&mut self) -> Option<u64> {
        let mut number = None;
        while let Some((byte, rest)) = self.0.split_first()
            && let Some(longer) = with_digit(number.unwrap_or(0), *byte)
        {
            number = Some(longer);
            self.0 = rest;
        }
        number
    }
}

// The number with one more digit, of the lower case, if its 64 bits have room for it.
fn with_digit(number: u64, byte: u8) -> Option<u64> {
    let digit = match byte {
        b'0'..=b'9' => byte - b'0',
        b'a'..=b'f' => byte - b'a' + 10,
        _ => return None,
    };
    Some(number.checked_mul(16)? | u64::from(digit))
}
