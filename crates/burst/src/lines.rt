// Lines about frames and refusals.
use crate::tally::Tally;
use intake::{Event, Silence};
use model::Refusal;
use network::Survey;
use std::io;

// A call of the network that was refused: FAILED with its pair, or the number of the refusal.
pub(crate) fn report_refusal(rt: &impl Print, call: &str, refusal: Refusal) -> io::Result<()> {
    match refusal {
        Refusal::Failed(_) => println!(rt; "network: {call} answered {refusal}"),
        _ => println!(rt;
            "network: {call} was refused, number {}",
            u32::from(refusal)
        ),
    }
}

// What became of a frame: one line or two, the second of the network, so an event has no `Display` of its own.
pub(crate) fn report_event(rt: &impl Print, number: usize, event: Event) -> io::Result<()> {
    match event {
        Event::Ended => Ok(()),
        Event::Silent(silence) => report_silence(rt, "receive", silence),
        Event::NotStored { size, error } => {
            println!(rt; "frame {number}: {size} bytes, not stored: {error}")
        }
        Event::Stored { first, size } => report_stored(rt, number, first, size),
        Event::Unacknowledged {
            first,
            size,
            silence,
        } => {
            report_stored(rt, number, first, size)?;
            report_silence(rt, "acknowledge", silence)
        }
    }
}

fn report_stored(rt: &impl Print, number: usize, first: u32, size: usize) -> io::Result<()> {
    println!(rt; "frame {number}: {size} bytes from block {first}, read back")
}

fn report_silence(rt: &impl Print, call: &str, silence: Silence) -> io::Result<()> {
    match silence {
        Silence::Refused(refusal) => report_refusal(rt, call, refusal),
        Silence::Unanswered => println!(rt; "network: {call} was not answered"),
    }
}

// What arrived in so many bytes, and what was stored of it.
pub fn report_burst(rt: &impl Print, size: usize, seen: Survey, tally: Tally) -> io::Result<()> {
    match size.saturating_sub(seen.used) {
        0 => println!(rt; "arrivals: all bytes are whole frames")?,
        left => println!(rt; "arrivals: the last {left} bytes are no whole frame")?,
    }
    let Survey { frames, groups, .. } = seen;
    println!(rt; "frames arrived: {frames}, group frames among them: {groups}")?;
    let Tally {
        stored,
        refused,
        bytes,
    } = tally;
    println!(rt; "frames stored: {stored}, not stored: {refused}, bytes stored: {bytes}")
}
