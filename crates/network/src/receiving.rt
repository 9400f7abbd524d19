// The wire as a device.
ghost use Rattle.std.specs.Prelude.{◌≡◌, ◌≤◌, length};
ghost use Rattle.network.specs.Networks.{network_of};
ghost use Rattle.network.specs.Wires.{wire_contents};

use crate::class::Network;
use crate::op::NetworkOp;
use crate::sending::add_bytes;
use crate::wire::Wire;
use arrivals::next_frame;
use device::{Command, Device, permitted, put_answer, put_counters};

impl Wire {
    // A wire with these bytes still to arrive.
    pub fn new(arrivals: Vec<u8>) -> Wire
        ensures { wire_contents result ≡ network_of 0 0 0 arrivals.items }
    {
        Wire {
            arrivals,
            place: 0,
            sent: 0,
            total: 0,
        }
    }
}

impl Device for Wire {
    type C = Network;

    ghost reach = { λ _. 1 };

    ghost contents = { wire_contents };

    fn reaches(&self) -> u32 {
        1
    }

    fn perform(&mut self, command: &Command<'_>, answer: &mut [u8]) -> usize {
        match permitted::<Network>(self.reaches(), command, answer.len()) {
            Some(NetworkOp::Send) => {
                self.sent = self.sent.wrapping_add(1);
                self.total = add_bytes(self.total, command.payload);
                0
            }
            Some(NetworkOp::Receive) => {
                let (moved, frame) = next_frame(command.level, &self.arrivals[self.place..]);
                let count = put_answer(answer, frame);
                self.place += moved;
                count
            }
            Some(NetworkOp::Counters) => put_counters(answer, self.sent, self.total),
            None => 0,
        }
    }
}
