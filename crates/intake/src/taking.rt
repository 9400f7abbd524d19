// The calls of an intake.
ghost use Rattle.std.specs.Prelude.{◌≡◌};
ghost use Rattle.archive.specs.Stores.{Keeps};
ghost use Rattle.intake.specs.Announcing.{Announced};
ghost use Rattle.intake.specs.Intakes.{Shelved, Asked};

use crate::event::Event;
use crate::intake::Intake;
use crate::wires::{acknowledge, arrived, receive};
use archive::Store;
use block::Block;
use driver::{Driver, Header};
use exchange::exchange;
use model::Class;
use network::Network;
use sound::{Sound, SoundOp};

// Plays a tone; what the speaker answers does not matter.
fn announce<S: Driver<C = Sound>>(speaker: &mut S, tone: &[u8])
    ensures fine { S.Driver.ok speaker.old → S.Driver.ok speaker.new }
    ensures calls { S.Driver.ok speaker.old → Announced S.Driver.steps speaker.old tone.now speaker.new }
{
    let header = Header::of_kind(u8::from(SoundOp::Play));
    let mut answer = [0u8; Sound::LONGEST_ANSWER];
    let _ = exchange(speaker, header, tone, &mut answer);
}

impl<N: Driver<C = Network>, B: Driver<C = Block>, S: Driver<C = Sound>> Intake<N, B, S> {
    // An intake over these drivers, with an empty store.
    pub fn new(wire: N, disk: B, speaker: S) -> Intake<N, B, S>
        ensures wire { result.wire ≡ wire }
        ensures disk { result.store.driver ≡ disk }
        ensures next { result.store.next ≡ 0 }
        ensures speaker { result.speaker ≡ speaker }
    {
        Intake {
            wire,
            store: Store::new(disk),
            speaker,
        }
    }

    // The wire, the store and the speaker, as they are.
    pub fn into_parts(self) -> (N, Store<B>, S)
        ensures { result ≡ (self.wire, self.store, self.speaker) }
    {
        (self.wire, self.store, self.speaker)
    }

    // Takes the next frame: receives it into a buffer and stores it, and only then announces and acknowledges it.
    pub fn take(&mut self, tone: &[u8], buffer: &mut [u8]) -> Event
        ensures wire { N.Driver.ok self.old.wire → N.Driver.ok self.new.wire }
        ensures disk { B.Driver.ok self.old.store.driver → B.Driver.ok self.new.store.driver }
        ensures speaker { S.Driver.ok self.old.speaker → S.Driver.ok self.new.speaker }
        ensures asked { N.Driver.ok self.old.wire → S.Driver.ok self.old.speaker → Asked N.Driver.steps S.Driver.steps self.old.wire self.old.speaker tone.now buffer.old buffer.new result self.new.wire self.new.speaker }
        ensures shelved { B.Driver.ok self.old.store.driver → Shelved (B.Driver.state self.old.store.driver) self.old.store.next buffer.new (B.Driver.fault self.new.store.driver) result (B.Driver.state self.new.store.driver) self.new.store.next }
        ensures keeps { B.Driver.ok self.old.store.driver → Keeps self.old.store.next (B.Driver.state self.old.store.driver) (B.Driver.state self.new.store.driver) }
    {
        // each early end is an event of its own, and no error that `?` could pass on
        let size = match receive(&mut self.wire, buffer) {
            Ok(size) => size,
            Err(silence) => return Event::Silent(silence),
        };
        let Some(frame) = arrived(buffer, size) else {
            return Event::Ended;
        };
        let first = match self.store.save(frame) {
            Ok(first) => first,
            Err(error) => return Event::NotStored { size, error },
        };
        announce(&mut self.speaker, tone);
        match acknowledge(&mut self.wire, frame) {
            Ok(()) => Event::Stored { first, size },
            Err(silence) => Event::Unacknowledged {
                first,
                size,
                silence,
            },
        }
    }
}
