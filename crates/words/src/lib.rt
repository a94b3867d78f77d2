// An answer of a call as one number, for programs in other languages: what is given, or a refusal. Every exported call makes its word here.
#![tactic(auto)]

ghost use Rattle.std.specs.Prelude.{◌≡◌, ◌<◌};
ghost use Rattle.reading.specs.Answer.{accepted, refused};
ghost use Rattle.read_forms.specs.Faults.{refused_by, answered, same};
ghost use Rattle.words.specs.Word.{word, Below};

use read_forms::Refusal;

// What a call gives: a count, or how much it wrote.
pub fn number_word(n: usize) -> u64
    ensures { result ≡ word (accepted n) }
{
    n as u64
}

// A refusal by any number: the number above, its place below.
pub fn refused_word(number: u8, place: usize) -> u64
    requires { place < 4294967296 }
    ensures { result ≡ word (refused number place) }
{
    number as u64 * 4294967296 + place as u64
}

// A refusal.
pub fn refusal_word(refusal: Refusal) -> u64
    requires { refusal.place < 4294967296 }
    ensures { result ≡ word (refused_by refusal) }
{
    refused_word(refusal.fault as u8, refusal.place)
}

// The word of an answer.
pub fn word_of(answer: Result<usize, Refusal>) -> u64
    requires { Below (answered same answer) }
    ensures { result ≡ word (answered same answer) }
{
    match answer {
        Ok(n) => number_word(n),
        Err(refusal) => refusal_word(refusal),
    }
}
