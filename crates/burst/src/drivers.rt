// Drivers started, restarted and asked for their counters, with a line about each.
ghost use Rattle.std.specs.Prelude.{IfOk, OnOk};
ghost use Rattle.burst.specs.Calls.{Restarted, Mended, Counts};

use crate::lines::report_refusal;
use driver::{Driver, Header};
use exchange::exchange;
use model::ANSWER_LIMIT;
use network::{Network, NetworkOp};
use reply::counters;
use sound::{Sound, SoundOp};
use std::io;

// Starts a driver, and says whether it is up; a refusal is told as that of a restart.
pub fn start<D: Driver>(rt: &impl Print, driver: &mut D) -> io::Result<bool>
    ensures fine { D.Driver.ok driver.old → D.Driver.ok driver.new }
    ensures calls { IfOk result (λ b. D.Driver.ok driver.old → Restarted D.Driver.steps driver.old b driver.new) }
{
    start_as(rt, "restart", driver)
}

// The same, with the name under which a refusal is told.
pub fn start_as<D: Driver>(rt: &impl Print, call: &str, driver: &mut D) -> io::Result<bool>
    ensures fine { D.Driver.ok driver.old → D.Driver.ok driver.new }
    ensures calls { IfOk result (λ b. D.Driver.ok driver.old → Restarted D.Driver.steps driver.old b driver.new) }
{
    match driver.restart() {
        Ok(()) => Ok(true),
        Err(refusal) => {
            report_refusal(rt, call, refusal)?;
            Ok(false)
        }
    }
}

// Restarts a network that has failed, and tells what its client could still know of it.
pub fn mend<N: Driver<C = Network>>(rt: &impl Print, wire: &mut N) -> io::Result<()>
    ensures fine { N.Driver.ok wire.old → N.Driver.ok wire.new }
    ensures calls { OnOk result (N.Driver.ok wire.old → Mended N.Driver.state N.Driver.steps wire.old wire.new) }
{
    let Err(refusal) = wire.get(0) else {
        return Ok(());
    };
    let waiting = wire.waiting();
    let reach = wire.reach();
    report_refusal(rt, "get", refusal)?;
    println!(rt; "network: down, waiting {waiting}, reach {reach}")?;
    let _ = start(rt, wire)?;
    Ok(())
}

// Tells the counters of the wire and of the speaker; both are asked, each through its driver, before a line is printed.
pub fn report_counters<N: Driver<C = Network>, S: Driver<C = Sound>>(
    rt: &impl Print,
    wire: &mut N,
    speaker: &mut S,
) -> io::Result<()>
    ensures wire { N.Driver.ok wire.old → Counts N.Driver.steps wire.old 3 wire.new }
    ensures speaker { S.Driver.ok speaker.old → Counts S.Driver.steps speaker.old 2 speaker.new }
{
    let of_wire = counted_on_wire(wire);
    let of_speaker = counted_on_speaker(speaker);
    tell_wire(rt, of_wire)?;
    tell_speaker(rt, of_speaker)
}

// Tells the counters of the wire, asked through its driver.
pub fn report_wire<N: Driver<C = Network>>(rt: &impl Print, wire: &mut N) -> io::Result<()>
    ensures { N.Driver.ok wire.old → Counts N.Driver.steps wire.old 3 wire.new }
{
    tell_wire(rt, counted_on_wire(wire))
}

// Tells the counters of the speaker, asked through its driver.
pub fn report_speaker<S: Driver<C = Sound>>(rt: &impl Print, speaker: &mut S) -> io::Result<()>
    ensures { S.Driver.ok speaker.old → Counts S.Driver.steps speaker.old 2 speaker.new }
{
    tell_speaker(rt, counted_on_speaker(speaker))
}

fn tell_wire(rt: &impl Print, (sent, total): (u32, u32)) -> io::Result<()> {
    println!(rt; "wire: {sent} frames sent, byte total {total}")
}

fn tell_speaker(rt: &impl Print, (samples, loudness): (u32, u32)) -> io::Result<()> {
    println!(rt; "speaker: {samples} samples, total {loudness}")
}

fn counted_on_wire<N: Driver<C = Network>>(wire: &mut N) -> (u32, u32)
    ensures { N.Driver.ok wire.old → Counts N.Driver.steps wire.old 3 wire.new }
{
    counted(wire, u8::from(NetworkOp::Counters))
}

fn counted_on_speaker<S: Driver<C = Sound>>(speaker: &mut S) -> (u32, u32)
    ensures { S.Driver.ok speaker.old → Counts S.Driver.steps speaker.old 2 speaker.new }
{
    counted(speaker, u8::from(SoundOp::Counters))
}

// The two counters of a device, through its driver; zeros where it does not answer. The kind is a number: `trait
// Operation` says nothing of a kind's number (no `Into<u8>`), so a kind as a type would be no plainer.
fn counted<D: Driver>(driver: &mut D, kind: u8) -> (u32, u32)
    ensures { D.Driver.ok driver.old → Counts D.Driver.steps driver.old kind driver.new }
{
    let mut answer = [0u8; ANSWER_LIMIT];
    let _ = exchange(driver, Header::of_kind(kind), &[], &mut answer);
    counters(&answer)
}
