// The fault layer's calls.
ghost use Rattle.std.specs.Prelude.{◌≡◌, Some, None, Ok, Err, MatchOption};
ghost use Rattle.std.specs.Fn.{FnOnceReturnsAtMut};
ghost use Rattle.model.specs.declared.refusal.Refusal.TheVariants.{Failed};
ghost use Rattle.driver.specs.Replies.{pair};
ghost use Rattle.fault.specs.Plans.{shut, way_of, turn, counted, told, heeded, Passes};
ghost use Rattle.fault.specs.Layers.{made, layer_state, layer_fault, LayerOk, Steps};
ghost use Rattle.fault.specs.Keeps;

use crate::parts::{Faulty, Plan, Way};
use crate::plans::LAYER;
use driver::{Collected, Driver, Header};
use model::{ANSWER_LIMIT, Class, Fault, Refusal};

// The pair of a layer that was stopped, or has just been made.
const STOPPED: Fault = Fault {
    layer: LAYER,
    place: 0,
};

impl<D> Faulty<D> {
    // FAILED with the layer's pair while it is down.
    fn check(&self) -> Result<(), Refusal>
        ensures { MatchOption self.now.down (result ≡ Ok tt) (λ f. result ≡ Err (Failed f)) }
    {
        match self.down {
            None => Ok(()),
            Some(fault) => Err(Refusal::Failed(fault)),
        }
    }

    // Passes an answer on, and takes the layer down where it is a failure.
    fn heed<T>(&mut self, answer: Result<T, Refusal>) -> Result<T, Refusal>
        ensures same { result ≡ answer }
        ensures down { self.new ≡ made (heeded self.old.down (told answer)) self.old.plan self.old.below }
    {
        if let Err(Refusal::Failed(fault)) = answer {
            self.down = Some(fault);
        }
        answer
    }

    // Gives a call its number, and makes it below, unless it is the one that fails.
    fn pass<T: Copy, F: FnOnce(&mut D) -> Result<T, Refusal>>(
        &mut self,
        call: F,
    ) -> Result<T, Refusal>
        requires { F.IsAlwaysCallable call }
        ensures below { Passes (FnOnceReturnsAtMut F.FnOnce call) (turn self.old.plan) self.old.below result self.new.below }
        ensures above { self.new ≡ made (heeded self.old.down (told result)) (counted self.old.plan) self.new.below }
    {
        let answer = match self.plan.next() {
            None => call(&mut self.below),
            Some(failure) => failure.answer(&mut self.below, call),
        };
        self.heed(answer)
    }
}

impl<D: Driver> Faulty<D> {
    // A layer over a driver, down, with no call counted yet. `number` and `way` are two numbers by a rule, as a client
    // plans them; any number is a way, so it becomes a `Way` here.
    pub fn new(below: D, number: u32, way: u32) -> Faulty<D>
        ensures value { result ≡ made (shut (pair 2 0)) (record { made = 0; number = number; way = way_of way }) below }
        ensures fine { D.Driver.ok below → LayerOk D.Driver.state D.Driver.ok result }
    {
        Faulty::counted_from(below, 0, number, way)
    }

    // The same, with so many calls counted already.
    pub fn counted_from(below: D, made: u32, number: u32, way: u32) -> Faulty<D>
        ensures value { result ≡ record { down = shut (pair 2 0); plan = record { made = made; number = number; way = way_of way }; below = below } }
        ensures fine { D.Driver.ok below → LayerOk D.Driver.state D.Driver.ok result }
    {
        Faulty {
            down: Some(STOPPED),
            plan: Plan {
                made,
                number,
                way: Way::from(way),
            },
            below,
        }
    }

    // The driver below, as it is.
    pub fn into_below(self) -> D
        ensures { result ≡ self.below }
    {
        self.below
    }
}

impl<D: Driver> Driver for Faulty<D> {
    type C = D::C;

    ghost state = { layer_state D.C.Class.rules D.Driver.state };

    ghost fault = { layer_fault D.Driver.fault };

    ghost ok = { LayerOk D.Driver.state D.Driver.ok };

    ghost steps = { Steps D.Driver.steps };

    // The laws of the driver below go one by one: the bound's record of them has no name that a definition in specs/
    // could take, as its type is over every parameter and bound of the driver.
    ghost keeps = { λ s c r t o h. let d = D.Driver in Keeps.law D.C.Class.rules d.state d.ok d.steps d.keeps d.stays d.empty s c r t o h };

    ghost stays = { λ s c r t o h. let d = D.Driver in Keeps.stay D.C.Class.rules d.state d.ok d.steps d.keeps d.stays d.empty s c r t o h };

    ghost empty = { λ s o h. let d = D.Driver in Keeps.empties D.C.Class.rules d.state d.ok d.steps d.keeps d.stays d.empty s o h };

    ghost pairs = { λ s c a b t o h. Keeps.pairs D.Driver.fault D.Driver.steps s c a b t h };

    ghost repeats = { λ s c a b t o z f h. let d = D.Driver in Keeps.repeated D.C.Class.rules d.state d.ok d.steps d.keeps d.stays d.empty d.fault s c a b t o z f h };

    fn get(&self, key: u32) -> Result<u32, Refusal> {
        self.check()?;
        self.below.get(key)
    }

    fn joined(&self, name: u32) -> Result<bool, Refusal> {
        self.check()?;
        self.below.joined(name)
    }

    fn waiting(&self) -> usize {
        match self.down {
            None => self.below.waiting(),
            Some(_) => 0,
        }
    }

    fn reach(&self) -> u32 {
        self.below.reach()
    }

    fn set(&mut self, key: u32, value: u32) -> Result<(), Refusal> {
        self.check()?;
        self.pass(|below| below.set(key, value))
    }

    fn join(&mut self, name: u32) -> Result<(), Refusal> {
        self.check()?;
        self.pass(|below| below.join(name))
    }

    fn leave(&mut self, name: u32) -> Result<(), Refusal> {
        self.check()?;
        self.pass(|below| below.leave(name))
    }

    fn submit(&mut self, header: Header, payload: &[u8]) -> Result<(), Refusal> {
        self.check()?;
        self.pass(|below| below.submit(header, payload))
    }

    // Not by `pass`: nothing would be known of a buffer that its closure has borrowed.
    fn collect(&mut self, buffer: &mut [u8]) -> Result<Collected, Refusal> {
        self.check()?;
        let answer = match self.plan.next() {
            None => self.below.collect(buffer),
            Some(failure) => {
                // the caller's buffer stays as it was, and one of the layer's own takes the answer
                let room = buffer.len().min(ANSWER_LIMIT);
                failure.answer(&mut self.below, |below| {
                    below.collect(&mut [0u8; ANSWER_LIMIT][..room])
                })
            }
        };
        self.heed(answer)
    }

    fn stop(&mut self) {
        self.below.stop();
        self.down = Some(STOPPED);
    }

    fn restart(&mut self) -> Result<(), Refusal> {
        self.pass(|below| below.restart())?;
        self.down = None;
        Ok(())
    }
}
