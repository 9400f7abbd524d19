// A device of any class.
ghost use Rattle.std.specs.Prelude.{◌≡◌, ℕ, true, length};
ghost use Rattle.model.specs.Requests.{Contents};
ghost use Rattle.device.specs.Performing.{outcome, Performed};

use crate::command::Command;
use model::Class;

pub trait Device {
    type C: Class;

    // How many addresses it has, from 0.
    ghost reach: { Self → ℕ };

    ghost contents: { Self → Contents };

    fn reaches(&self) -> u32
        ensures count { result ≡ reach self.now }
        ensures held { Self.C.Class.rules.holds (reach self.now) (contents self.now) ≡ true };

    // Performs a command that the class allows, and answers the length of its answer, which stands at the
    // front of the buffer; any other command changes nothing, and answers the length 0, by a rule.
    fn perform(&mut self, command: &Command<'_>, answer: &mut [u8]) -> usize
        ensures { Performed (reach self.old) answer.old (outcome Self.C.Class.rules (reach self.old) (contents self.old) command.now.level command.now.kind command.now.address command.now.payload.now (length answer.old)) (reach self.new) (contents self.new) answer.new result };
}
