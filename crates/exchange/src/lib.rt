// One request through a driver: submitted, and its answer collected.
#![tactic(auto)]

ghost use Rattle.std.specs.Prelude.{◌≡◌, [], length};
ghost use Rattle.model.specs.Headers.{request_of};
ghost use Rattle.driver.specs.Replies.{got, Framed};
ghost use Rattle.exchange.specs.Exchanges.{Exchanged, Answered};
ghost use Rattle.exchange.specs.Hearing.{Heard};

pub mod silence;

use driver::{Collected, Driver, Header};
use model::{Class, Refusal};
pub use silence::Silence;

// Submits a request and collects once. The answer is the request's own where nothing waited before it.
pub fn exchange<D: Driver>(
    driver: &mut D,
    header: Header,
    payload: &[u8],
    buffer: &mut [u8],
) -> Result<Collected, Refusal>
    ensures fine { D.Driver.ok driver.old → D.Driver.ok driver.new }
    ensures calls { D.Driver.ok driver.old → Exchanged D.Driver.steps driver.old (request_of header payload.now) (length buffer.old) (got buffer.new result) driver.new }
    ensures answer { D.Driver.ok driver.old → (D.Driver.state driver.old).waiting ≡ [] → Answered D.C.Class.rules (D.Driver.state driver.old) (request_of header payload.now) (length buffer.old) (D.Driver.fault driver.new) (got buffer.new result) (D.Driver.state driver.new) }
    ensures frame { D.Driver.ok driver.old → Framed buffer.old buffer.new result }
{
    driver.submit(header, payload)?;
    driver.collect(buffer)
}

// Exchanges a request, and says how many bytes the answer has; they stand at the front of the buffer. `Heard` takes the
// members of the driver that it speaks of: all of them together have a type over its class and kinds too, which no
// lemma about states needs.
pub fn ask<D: Driver>(
    driver: &mut D,
    header: Header,
    payload: &[u8],
    buffer: &mut [u8],
) -> Result<usize, Silence>
    ensures fine { D.Driver.ok driver.old → D.Driver.ok driver.new }
    ensures heard { D.Driver.ok driver.old → Heard D.C.Class.rules D.Driver.state D.Driver.fault D.Driver.steps driver.old (request_of header payload.now) buffer.old buffer.new result driver.new }
{
    match exchange(driver, header, payload, buffer)? {
        Collected::Done { length, .. } => Ok(length),
        Collected::Lost { .. } | Collected::Idle | Collected::NotYet => Err(Silence::Unanswered),
    }
}
