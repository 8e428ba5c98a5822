// An answer as the door gives it: its number and, where there is one, the value in the place that is lent for it.
ghost use Rattle.std.specs.Prelude.{◌≡◌};
ghost use Rattle.answers.specs.Answers.{reading, acceptance};
ghost use Rattle.answers.specs.Gave.{Gave};

use answers::Refusal;

pub(crate) fn give<T: Copy>(answer: Result<T, Refusal>, out: &mut T) -> u32
    ensures { Gave (reading answer) out.old result out.new }
{
    match answer {
        Ok(value) => {
            *out = value;
            0
        }
        Err(refusal) => refusal.number(),
    }
}

// Of an answer without a value. (By `give` each caller would lend it a place for (), which is no plainer.)
pub(crate) fn number_of(answer: Result<(), Refusal>) -> u32
    ensures { result ≡ (acceptance answer).number }
{
    match answer {
        Ok(()) => 0,
        Err(refusal) => refusal.number(),
    }
}
