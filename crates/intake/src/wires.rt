// Frames on the wire.
ghost use Rattle.std.specs.Prelude.{◌≡◌};
ghost use Rattle.intake.specs.Wires.{front, Received, Acknowledged};

use driver::{Driver, Header};
use exchange::{Silence, ask};
use network::{Network, NetworkOp};
use reply::acknowledgement;
use store::LONGEST_FRAME;

// The first bytes of a buffer; none where there are none. A length beside a buffer, by a rule: a driver writes into the
// caller's buffer and answers a length.
pub(crate) fn arrived(buffer: &[u8], size: usize) -> Option<&[u8]>
    ensures { front buffer.now size result }
{
    if size == 0 { None } else { buffer.get(..size) }
}

// Asks the wire for the next frame, and says how many bytes it has.
pub(crate) fn receive<N: Driver<C = Network>>(
    wire: &mut N,
    buffer: &mut [u8],
) -> Result<usize, Silence>
    ensures fine { N.Driver.ok wire.old → N.Driver.ok wire.new }
    ensures calls { N.Driver.ok wire.old → Received N.Driver.steps wire.old buffer.old buffer.new result wire.new }
{
    ask(
        wire,
        Header::of_kind(u8::from(NetworkOp::Receive)),
        &[],
        buffer,
    )
}

// Gives the acknowledgement of a frame to the wire.
pub(crate) fn acknowledge<N: Driver<C = Network>>(wire: &mut N, frame: &[u8]) -> Result<(), Silence>
    ensures fine { N.Driver.ok wire.old → N.Driver.ok wire.new }
    ensures calls { N.Driver.ok wire.old → Acknowledged N.Driver.steps wire.old frame.now result wire.new }
{
    let reply = acknowledgement(frame).ok_or(Silence::Unanswered)?;
    let mut answer = [0u8; LONGEST_FRAME];
    ask(
        wire,
        Header::of_kind(u8::from(NetworkOp::Send)),
        &reply,
        &mut answer,
    )?;
    Ok(())
}
