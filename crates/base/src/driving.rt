// The base driver's calls.
ghost use Rattle.std.specs.Prelude.{◌≡◌, ◌^◌, ◌<◌, false};
ghost use Rattle.driver.specs.States.{bare};
ghost use Rattle.driver.specs.Replies.{pair};
ghost use Rattle.basis.specs.Views.{Ok, meaning};
ghost use Rattle.basis.specs.Steps.{Step};
ghost use Rattle.base.specs.Held.{view};
ghost use Rattle.basis.proofs.Keeps.{law, empties};
ghost use Rattle.basis.proofs.Stays.{stay};
ghost use Rattle.base.specs.Pairs.{paired};

use crate::noting::{has_joined, note_in};
use crate::parts::{BaseDriver, Running};
use device::{Command, Device};
use driver::{Collected, Driver, Header};
use model::{Class, Fault, Operation, Refusal};

// What a base driver that is down answers.
const DOWN: Refusal = Refusal::Failed(Fault { layer: 1, place: 0 });

// A number of 32 bits, where it is one.
fn low(x: u64) -> u32
    ensures { x < 2 ^ 32 → result ≡ x }
{
    u32::try_from(x).unwrap_or(0)
}

impl<V: Device> BaseDriver<V> {
    // A driver over a device, down.
    pub fn new(device: V) -> BaseDriver<V>
        ensures fine { Ok V.C.Class.rules (view V.Device result) }
        ensures state { meaning V.C.Class.rules (view V.Device result) ≡ bare V.C.Class.rules false (V.Device.reach device) (V.Device.contents device) }
        ensures device { result.device ≡ device }
    {
        BaseDriver {
            running: None,
            device,
        }
    }

    // The device, with its contents as they are.
    pub fn into_device(self) -> V
        ensures { result ≡ self.device }
    {
        self.device
    }
}

impl<V: Device> Driver for BaseDriver<V> {
    type C = V::C;

    ghost state = { λ s. meaning V.C.Class.rules (view V.Device s) };

    ghost fault = { λ _. pair 1 0 };

    ghost ok = { λ s. Ok V.C.Class.rules (view V.Device s) };

    ghost steps = { λ s c r t. Step V.C.Class.rules (view V.Device s) c r (view V.Device t) };

    ghost keeps = { λ s c r t o h. law V.C.Class.rules V.C.Class.bounds (view V.Device s) c r (view V.Device t) o h };

    ghost stays = { λ s c r t o h. stay V.C.Class.rules V.C.Class.bounds (view V.Device s) c r (view V.Device t) o h };

    ghost empty = { λ s o h. empties V.C.Class.rules (view V.Device s) o h };

    ghost pairs = { λ s c a b t o h. paired V.C.Class.rules (view V.Device s) c a b (view V.Device t) h };

    ghost repeats = { λ s c a b t o d f h. paired V.C.Class.rules (view V.Device s) c a b (view V.Device t) h };

    fn get(&self, key: u32) -> Result<u32, Refusal> {
        let running = self.running.as_ref().ok_or(DOWN)?;
        let key = u64::from(key);
        if !V::C::has_setting(key) {
            return Err(Refusal::Setting);
        }
        Ok(low(running.settings.content(key)))
    }

    fn joined(&self, name: u32) -> Result<bool, Refusal> {
        let running = self.running.as_ref().ok_or(DOWN)?;
        if !V::C::has_name(name) {
            return Err(Refusal::Name);
        }
        Ok(has_joined(&running.roll, name))
    }

    fn waiting(&self) -> usize {
        self.running
            .as_ref()
            .map_or(0, |running| running.queue.len())
    }

    fn reach(&self) -> u32 {
        self.device.reaches()
    }

    fn set(&mut self, key: u32, value: u32) -> Result<(), Refusal> {
        let running = self.running.as_mut().ok_or(DOWN)?;
        let range = V::C::row(u64::from(key)).ok_or(Refusal::Setting)?;
        if range.greatest < value {
            return Err(Refusal::Value);
        }
        // no log has room for fewer entries than a class has settings
        note_in(&mut running.settings, key, value, Refusal::Value)
    }

    fn join(&mut self, name: u32) -> Result<(), Refusal> {
        let running = self.running.as_mut().ok_or(DOWN)?;
        if !V::C::has_name(name) {
            return Err(Refusal::Name);
        }
        if !has_joined(&running.roll, name) && running.roll.len() >= V::C::ROLL_LIMIT {
            return Err(Refusal::Roll);
        }
        // no log has room for fewer entries than a roll has names
        note_in(&mut running.roll, name, u32::from(true), Refusal::Roll)
    }

    fn leave(&mut self, name: u32) -> Result<(), Refusal> {
        let running = self.running.as_mut().ok_or(DOWN)?;
        if !V::C::has_name(name) {
            return Err(Refusal::Name);
        }
        // an entry that goes needs no room
        note_in(&mut running.roll, name, u32::from(false), Refusal::Roll)
    }

    fn submit(&mut self, header: Header, payload: &[u8]) -> Result<(), Refusal> {
        let running = self.running.as_mut().ok_or(DOWN)?;
        let op = V::C::operation(header.kind).ok_or(Refusal::Kind)?;
        if header.address >= self.device.reaches() {
            return Err(Refusal::Address);
        }
        if !op.takes(payload.len()) {
            return Err(Refusal::Payload);
        }
        running.queue.push(header, payload)
    }

    fn collect(&mut self, buffer: &mut [u8]) -> Result<Collected, Refusal> {
        let running = self.running.as_mut().ok_or(DOWN)?;
        if buffer.len() < V::C::LONGEST_ANSWER {
            return Err(Refusal::Answer);
        }
        let Some(head) = running.queue.front() else {
            return Ok(Collected::Idle);
        };
        let Header { tag, kind, address } = head.header;
        let command = Command {
            level: low(running.settings.content(0)),
            kind,
            address,
            payload: running.queue.payload(0).unwrap_or(&[]),
        };
        let length = self.device.perform(&command, buffer);
        running.queue.pop();
        Ok(Collected::Done { tag, length })
    }

    fn stop(&mut self) {
        self.running = None;
    }

    fn restart(&mut self) -> Result<(), Refusal> {
        self.running = Some(Running::new());
        Ok(())
    }
}
