// What a base driver holds.
ghost use Rattle.std.specs.Prelude.{◌≡◌, []};

use device::Device;
use entry_log::{Log, Membership, Setting};
use queue::Queue;

// What a driver keeps while it is up: its settings and its roll in logs, its waiting requests in a queue.
#[derive(Drop)]
pub struct Running<C> {
    pub(crate) settings: Log<Setting<C>>,
    pub(crate) roll: Log<Membership<C>>,
    pub(crate) queue: Queue,
}

impl<C> Running<C> {
    // With default settings, nobody joined and nothing waiting.
    pub(crate) fn new() -> Running<C>
        ensures settings { result.settings ≡ [] }
        ensures roll { result.roll ≡ [] }
        ensures queue { result.queue ≡ [] }
    {
        Running {
            settings: Log::new(),
            roll: Log::new(),
            queue: Queue::new(),
        }
    }
}

// A driver over a device.
#[derive(Drop)]
pub struct BaseDriver<V: Device> {
    // none while the driver is down
    pub(crate) running: Option<Running<V::C>>,
    pub(crate) device: V,
}
