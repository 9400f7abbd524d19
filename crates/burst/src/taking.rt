// Taking a burst of frames.
ghost use Rattle.std.specs.Prelude.{IfOk};
ghost use Rattle.archive.specs.Stores.{Keeps};
ghost use Rattle.burst.specs.Bursts.{Left};

use crate::lines::{report_burst, report_event};
use crate::tally::Tally;
use block::Block;
use driver::Driver;
use intake::{Event, Intake};
use network::{LONGEST_FRAME, Network, count_frames};
use sound::Sound;
use std::io;

// Whether a burst ends with such a frame: nothing arrives any more, or the network does not answer.
fn ends(event: Event) -> bool {
    matches!(
        event,
        Event::Ended | Event::Silent(_) | Event::Unacknowledged { .. }
    )
}

// Takes up to `most` frames, with a tone for each that is stored, and tells what becomes of it.
pub fn take_frames<N: Driver<C = Network>, B: Driver<C = Block>, S: Driver<C = Sound>>(
    rt: &impl Print,
    intake: &mut Intake<N, B, S>,
    tone: &[u8],
    most: usize,
) -> io::Result<Tally>
    ensures wire { N.Driver.ok intake.old.wire → N.Driver.ok intake.new.wire }
    ensures disk { B.Driver.ok intake.old.store.driver → B.Driver.ok intake.new.store.driver }
    ensures speaker { S.Driver.ok intake.old.speaker → S.Driver.ok intake.new.speaker }
    ensures keeps { B.Driver.ok intake.old.store.driver → Keeps intake.old.store.next (B.Driver.state intake.old.store.driver) (B.Driver.state intake.new.store.driver) }
    ensures left { IfOk result (λ tally. B.Driver.ok intake.old.store.driver → Left (B.Driver.state intake.old.store.driver) intake.old.store.next (B.Driver.state intake.new.store.driver) intake.new.store.next tally) }
{
    let mut tally = Tally::default();
    let mut buffer = [0u8; LONGEST_FRAME];
    for number in 0..most {
        let event = intake.take(tone, &mut buffer);
        tally.count(event);
        report_event(rt, number, event)?;
        if ends(event) {
            return Ok(tally);
        }
    }
    Ok(tally)
}

// Takes the frames that arrived, with a tone for each that is stored, and tells what became of each and of all.
pub fn take_burst<N: Driver<C = Network>, B: Driver<C = Block>, S: Driver<C = Sound>>(
    rt: &impl Print,
    intake: &mut Intake<N, B, S>,
    tone: &[u8],
    arrivals: &[u8],
) -> io::Result<Tally>
    ensures wire { N.Driver.ok intake.old.wire → N.Driver.ok intake.new.wire }
    ensures disk { B.Driver.ok intake.old.store.driver → B.Driver.ok intake.new.store.driver }
    ensures speaker { S.Driver.ok intake.old.speaker → S.Driver.ok intake.new.speaker }
    ensures keeps { B.Driver.ok intake.old.store.driver → Keeps intake.old.store.next (B.Driver.state intake.old.store.driver) (B.Driver.state intake.new.store.driver) }
    ensures left { IfOk result (λ tally. B.Driver.ok intake.old.store.driver → Left (B.Driver.state intake.old.store.driver) intake.old.store.next (B.Driver.state intake.new.store.driver) intake.new.store.next tally) }
{
    let seen = count_frames(arrivals);
    let tally = take_frames(rt, intake, tone, seen.frames)?;
    report_burst(rt, arrivals.len(), seen, tally)?;
    Ok(tally)
}
