// Replays the recorded answers of the original: calls the library on the inputs of each line of the list and holds what it answers to the
// line. The list says how it was made, and what its columns are.
#![tactic(auto)]

ghost use Rattle.std.specs.Prelude.{◌<◌, ◌≤◌, length, IfOk};
ghost use Rattle.std.specs.Io.KnownBytes.{Consumes, IsAtEnd};

mod account;
mod arithmetic;
mod causes;
mod control;
mod fields;
mod list;
mod memory;
mod narrow;
mod registers;
mod states;
mod told;
mod translation;

use account::{Account, Source};
use states::States;
use std::io;
use std::io::Read;

// Room for a list almost twice as long.
const ROOM: usize = 1 << 20;

// The room is lent as the array that it is, of which no proof is asked how long it is.
fn main(rt: HostRuntime) -> io::Result<()> {
    let mut text = [0; ROOM];
    replay_input(&rt, &mut text)
}

fn replay_input(rt: &(impl Input + Print), text: &mut [u8; ROOM]) -> io::Result<()> {
    let list = read_full(&mut rt.reader(), text)?;
    replay(rt, list)
}

// Reads until the text is full or the input ends. What the input gave: it stands at the text's start. The library's way to read to the end
// wants a heap, of which this program has none.
fn read_full<'a, R: Read>(input: &mut R, text: &'a mut [u8]) -> io::Result<&'a [u8]>
    ensures within { IfOk result (λ read. length read.now ≤ length text.old) }
    ensures bytes { IfOk result (λ read. Consumes (R.remaining input.old) (R.remaining input.new) read.now) }
    ensures end { IfOk result (λ read. length read.now < length text.old → IsAtEnd (R.remaining input.new)) }
{
    let mut done = 0;
    while done < text.len() {
        let count = input.read(&mut text[done..])?;
        if count == 0 {
            break;
        }
        done += count;
    }
    Ok(&text[..done])
}

fn replay(rt: &impl Print, list: &[u8]) -> io::Result<()> {
    let mut states = States::default();
    let mut account = Account::default();
    for (number, text) in (1..).zip(list.split_inclusive(|byte| *byte == b'\n')) {
        match text {
            // It ends a module, whose name stands between a space and the line's end.
            [b'!', _, name @ .., _] => account.close(rt, name)?,
            [b'!', ..] => account.close(rt, text)?,
            _ => account.note(rt, Source { number, text }, states.replay(text))?,
        }
    }
    account.report(rt)
}
