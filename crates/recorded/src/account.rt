// The account of a replay: the answers of a module and how many of them differ, then those of all modules, and the lines that are not
// understood.
use crate::told::Verdict;
use std::ops::AddAssign;
use std::{fmt, io};

// A line as it stands in the list. It is written as the bytes that it is, which need not be text.
#[derive(Clone, Copy)]
pub(crate) struct Source<'a> {
    pub number: u64,
    pub text: &'a [u8],
}

#[derive(Clone, Copy, Default)]
struct Tally {
    answers: u64,
    differ: u64,
}

#[derive(Clone, Copy, Default)]
pub(crate) struct Account {
    module: Tally,
    all: Tally,
    unread: u64,
}

// The first few lines of a kind are shown.
const SHOWN: u64 = 8;

impl Account {
    // Takes a line in. One that is not as the list says is shown with its number.
    pub(crate) fn note(
        &mut self,
        rt: &impl Print,
        source: Source,
        verdict: Verdict,
    ) -> io::Result<()> {
        match verdict {
            Verdict::Remark => {}
            Verdict::Same => self.module += Tally::SAME,
            Verdict::Differs => {
                self.module += Tally::DIFFERS;
                if self.module.differ <= SHOWN {
                    source.show(rt, "differs")?;
                }
            }
            Verdict::Unread => {
                self.unread = self.unread.wrapping_add(1);
                if self.unread <= SHOWN {
                    source.show(rt, "is not understood")?;
                }
            }
        }
        Ok(())
    }

    // A module is over: writes its answers, after its name, and adds them to the others.
    pub(crate) fn close(&mut self, rt: &impl Print, name: &[u8]) -> io::Result<()> {
        self.module.row(rt, name)?;
        self.all += self.module;
        self.module = Tally::default();
        Ok(())
    }

    pub(crate) fn report(&self, rt: &impl Print) -> io::Result<()> {
        self.all.row(rt, b"total")?;
        println!(rt; "{} lines not understood", self.unread)
    }
}

impl Tally {
    const SAME: Tally = Tally {
        answers: 1,
        differ: 0,
    };

    const DIFFERS: Tally = Tally {
        answers: 1,
        differ: 1,
    };

    fn row(&self, rt: &impl Print, name: &[u8]) -> io::Result<()> {
        rt.write_all(name)?;
        println!(rt; ": {self}")
    }
}

impl AddAssign for Tally {
    fn add_assign(&mut self, other: Tally) {
        self.answers = self.answers.wrapping_add(other.answers);
        self.differ = self.differ.wrapping_add(other.differ);
    }
}

impl fmt::Display for Tally {
    fn fmt<W: fmt::Write>(&self, f: &mut fmt::Formatter<W>) -> fmt::Result {
        write!(f, "{} answers, {} differ", self.answers, self.differ)
    }
}

impl Source<'_> {
    fn show(&self, rt: &impl Print, what: &str) -> io::Result<()> {
        print!(rt; "line {} {what}: ", self.number)?;
        rt.write_all(self.text)
    }
}
