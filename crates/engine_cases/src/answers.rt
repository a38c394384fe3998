// Does a call's answer agree with what is stored; and one number for all words of the memory after it.
ghost use Rattle.std.specs.Prelude.{◌<◌};

use crate::stored::Call;
use model::Refused;
use numbers::refusal_number;

// A refusal agrees in number and position, and what was done by a test of its own.
pub fn agrees<T: Copy, F: FnOnce(T) -> bool>(
    answer: Result<T, Refused>,
    call: Call,
    done: F,
) -> bool
    requires { F.IsAlwaysCallable done }
{
    match answer {
        Ok(what) => call.number == 0 && done(what),
        Err(Refused(refusal, at)) => refusal_number(refusal) == call.number
            && at == call.first as usize,
    }
}

// A polynomial in the words modulo the first prime above 2^32, so that a single changed word changes it for certain.
pub fn digest(words: &[u32], start: u64) -> u64
    requires { start < 4294967311 }
    ensures { result < 4294967311 }
{
    let mut sum = start;
    for word in words {
        sum = (sum * 1103515245 + u64::from(*word)) % 4294967311;
    }
    sum
}
