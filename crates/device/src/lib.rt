// A device of any class, and what its devices share.
#![tactic(auto)]

ghost use Rattle.std.specs.Prelude.{◌≡◌, length};
ghost use Rattle.model.specs.Requests.{counts};
ghost use Rattle.device.specs.Performing.{allowed, permitted, put, put_count};

use model::Class;

pub mod command;
mod device;

pub use command::Command;
pub use device::Device;

// Whether a device of this reach performs such a request, with room for the answer.
pub fn allows<C: Class>(
    reach: u32,
    level: u32,
    kind: u8,
    address: u32,
    size: usize,
    room: usize,
) -> bool
    ensures { result ≡ allowed C.Class.rules reach level kind address size room }
{
    u64::from(level) <= C::greatest(0)
        && C::has_kind(kind)
        && address < reach
        && C::takes(kind, size)
        && C::LONGEST_ANSWER <= room
}

// The kind of a command that a device of this reach performs, with room for the answer; none where the class excludes it.
pub fn permitted<C: Class>(reach: u32, command: &Command<'_>, room: usize) -> Option<C::Op>
    ensures { result ≡ permitted C.Class.rules C.Op.of reach command.now.level command.now.kind command.now.address (length command.now.payload.now) room }
{
    let Command {
        level,
        kind,
        address,
        payload,
    } = *command;
    if allows::<C>(reach, level, kind, address, payload.len(), room) {
        C::operation(kind)
    } else {
        None
    }
}

// Puts an answer at the front of a buffer, and says how long it is; nothing where it does not fit. That is the length 0
// and no `None`, by a rule: a device answers the length 0 where it does nothing.
pub fn put_answer(buffer: &mut [u8], answer: &[u8]) -> usize
    ensures buffer { buffer.new ≡ put answer.now buffer.old }
    ensures count { result ≡ put_count answer.now buffer.old }
{
    if answer.len() > buffer.len() {
        return 0;
    }
    buffer[0..answer.len()].copy_from_slice(answer);
    answer.len()
}

// Answers two counters, four bytes each, the least byte first.
pub fn put_counters(buffer: &mut [u8], first: u32, second: u32) -> usize
    ensures buffer { buffer.new ≡ put (counts first second) buffer.old }
    ensures count { result ≡ put_count (counts first second) buffer.old }
{
    let [a, b, c, d] = first.to_le_bytes();
    let [e, f, g, h] = second.to_le_bytes();
    put_answer(buffer, &[a, b, c, d, e, f, g, h])
}
