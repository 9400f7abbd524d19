// A driver of any class.
ghost use Rattle.std.specs.Prelude.{◌≡◌, ℕ, false, length};
ghost use Rattle.model.specs.declared.refusal.Fault.{Fault};
ghost use Rattle.driver.specs.States.{State, bare};
ghost use Rattle.driver.specs.Calls.{Call, Reply, Fallible, set, join, leave, stop, submit, collect, restart, accepted, failed};
ghost use Rattle.driver.specs.Rules.{Rule};
ghost use Rattle.model.specs.Headers.{request_of};
ghost use Rattle.driver.specs.Replies.{plain, got, Framed, value_of, member_of, pair};

use crate::answers::{Collected, Header};
use model::{Class, Refusal};

pub trait Driver {
    type C: Class;

    // What the driver means.
    ghost state: { Self → State };

    // The pair that it answers while it is down.
    ghost fault: { Self → Fault };

    // Well formed: every constructor gives it, and every call keeps it. It is a premise of each clause: as an invariant of
    // whoever holds a driver it would be a `requires` of its constructor, and by a rule no public call has one.
    ghost ok: { Self → Type 0 };

    // Its own steps, exactly.
    ghost steps: { Self → Call → Reply → Self → Type 0 };

    fn get(&self, key: u32) -> Result<u32, Refusal>
        ensures { ok self.now → result ≡ value_of Self.C.Class.rules (state self.now) (fault self.now) key };

    fn joined(&self, name: u32) -> Result<bool, Refusal>
        ensures { ok self.now → result ≡ member_of Self.C.Class.rules (state self.now) (fault self.now) name };

    fn waiting(&self) -> usize
        ensures { ok self.now → result ≡ length (state self.now).waiting };

    fn reach(&self) -> u32
        ensures { ok self.now → result ≡ (state self.now).reach };

    fn set(&mut self, key: u32, value: u32) -> Result<(), Refusal>
        ensures { ok self.old → steps self.old (set key value) (plain result) self.new };

    fn join(&mut self, name: u32) -> Result<(), Refusal>
        ensures { ok self.old → steps self.old (join name) (plain result) self.new };

    fn leave(&mut self, name: u32) -> Result<(), Refusal>
        ensures { ok self.old → steps self.old (leave name) (plain result) self.new };

    // A header is kept and compared, and its payload is lent for the call alone, so one struct of both would be no plainer.
    fn submit(&mut self, header: Header, payload: &[u8]) -> Result<(), Refusal>
        ensures { ok self.old → steps self.old (submit (request_of header payload.now)) (plain result) self.new };

    fn collect(&mut self, buffer: &mut [u8]) -> Result<Collected, Refusal>
        ensures step { ok self.old → steps self.old (collect (length buffer.old)) (got buffer.new result) self.new }
        ensures frame { ok self.old → Framed buffer.old buffer.new result };

    fn stop(&mut self)
        ensures { ok self.old → steps self.old stop accepted self.new };

    fn restart(&mut self) -> Result<(), Refusal>
        ensures { ok self.old → steps self.old restart (plain result) self.new };

    // Its steps keep the driver rules.
    ghost keeps: { (s : Self) (c : Call) (r : Reply) (t : Self) → ok s → steps s c r t → Rule Self.C.Class.rules (state s) c r (state t) };

    ghost stays: { (s : Self) (c : Call) (r : Reply) (t : Self) → ok s → steps s c r t → ok t };

    // A driver that is down has default settings, an empty roll and nothing waiting.
    ghost empty: { (s : Self) → ok s → (state s).up ≡ false → state s ≡ bare Self.C.Class.rules false (state s).reach (state s).contents };

    // The pair of a failure is the pair that it answers from then on.
    ghost pairs: { (s : Self) (c : Call) (a b : ℕ) (t : Self) → ok s → steps s c (failed a b) t → fault t ≡ pair a b };

    // A driver that is down repeats its pair.
    ghost repeats: { (s : Self) (c : Call) (a b : ℕ) (t : Self) → ok s → (state s).up ≡ false → Fallible c → steps s c (failed a b) t → fault s ≡ pair a b };
}
