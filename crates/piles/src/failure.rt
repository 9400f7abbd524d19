// Which call of a pile is to fail.
ghost use Rattle.std.specs.Prelude.{◌≡◌, IfOk, Ok, None};
ghost use Rattle.piles.specs.Plans.{never};
ghost use Rattle.piles.specs.Words.{Says};

use std::env;
use std::num::ParseIntError;

// The call that is to fail, and how; no call has the number 0, by a rule.
#[derive(Clone, Copy, PartialEq, Eq, Debug, Default)]
pub struct Failure {
    pub number: u32,
    // a number, by a rule: any is a way
    pub way: u32,
}

// The planned failure: the call and the way that the program's arguments say. It promises nothing, since std's `args`
// promises nothing of the words.
pub fn planned(rt: &HostRuntime) -> anyhow::Result<Failure> {
    let mut words = env::args(rt)?.skip(1);
    let number = words.next();
    let way = words.next();
    Ok(failure_of(number, way)?)
}

// The failure that two words say.
fn failure_of(number: Option<String>, way: Option<String>) -> Result<Failure, ParseIntError>
    ensures number { IfOk result (λ failure. Says number (Ok failure.number)) }
    ensures way { IfOk result (λ failure. Says way (Ok failure.way)) }
    ensures missing { number ≡ None → way ≡ None → result ≡ Ok never }
{
    let number = number_of(number)?;
    let way = number_of(way)?;
    Ok(Failure { number, way })
}

// The number that a word says; a missing one says 0.
fn number_of(word: Option<String>) -> Result<u32, ParseIntError>
    ensures { Says word result }
{
    word.map_or(Ok(0), |word| word.as_str().parse::<u32>())
}
