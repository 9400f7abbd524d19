// A pile over each device.
ghost use Rattle.std.specs.Prelude.{◌≡◌, false, length};
ghost use Rattle.driver.specs.States.{bare};
ghost use Rattle.driver.specs.Replies.{pair};
ghost use Rattle.fault.specs.Plans.{shut};
ghost use Rattle.fault.specs.Layers.{LayerOk};
ghost use Rattle.block.specs.Blocks.{block_rules};
ghost use Rattle.block.specs.Disks.{reach_of, blocks_of};
ghost use Rattle.block.specs.Memories.{memory_of};
ghost use Rattle.network.specs.Networks.{network_rules, network_of};
ghost use Rattle.sound.specs.Sounds.{sound_rules, sound_of};
ghost use Rattle.piles.specs.Plans.{plan_of, never};

use crate::failure::Failure;
use base::BaseDriver;
use block::Disk;
use driver::Driver;
use fault::Faulty;
use network::Wire;
use sound::Speaker;

// How many blocks the disk of a gateway has.
pub const DISK_BLOCKS: usize = 16;

// Eight samples, each half the one before, as signed 16-bit numbers, the lower byte first.
pub const TONE: [u8; 16] = [
    0x00, 0x40, 0x00, 0x20, 0x00, 0x10, 0x00, 0x08, 0x00, 0xFC, 0x00, 0xFE, 0x00, 0xFF, 0x80, 0xFF,
];

pub type WirePile = Faulty<BaseDriver<Wire>>;

pub type DiskPile = Faulty<BaseDriver<Disk>>;

pub type SpeakerPile = Faulty<BaseDriver<Speaker>>;

// A wire with these bytes still to arrive, whose driver fails as planned.
pub fn wire_pile(arrivals: Vec<u8>, failure: Failure) -> WirePile
    ensures fine { ⟦<Faulty<BaseDriver<Wire>> as Driver>⟧.ok result }
    ensures state { ⟦<Faulty<BaseDriver<Wire>> as Driver>⟧.state result ≡ bare network_rules false 1 (network_of 0 0 0 arrivals.items) }
    ensures plan { result.plan ≡ plan_of failure }
{
    let driver = BaseDriver::new(Wire::new(arrivals));
    Faulty::new(driver, failure.number, failure.way)
}

// A disk over this memory, whose driver does not fail.
pub fn disk_pile(memory: Vec<u8>) -> DiskPile
    ensures fine { ⟦<Faulty<BaseDriver<Disk>> as Driver>⟧.ok result }
    ensures state { ⟦<Faulty<BaseDriver<Disk>> as Driver>⟧.state result ≡ bare block_rules false (reach_of (length memory.items)) (blocks_of memory.items) }
    ensures memory { memory_of result.below.device ≡ memory.items }
    ensures plan { result.plan ≡ plan_of never }
{
    unfailing(BaseDriver::new(Disk::new(memory)))
}

// A speaker that has played nothing, whose driver does not fail.
pub fn speaker_pile() -> SpeakerPile
    ensures fine { ⟦<Faulty<BaseDriver<Speaker>> as Driver>⟧.ok result }
    ensures state { ⟦<Faulty<BaseDriver<Speaker>> as Driver>⟧.state result ≡ bare sound_rules false 1 (sound_of 0 0) }
    ensures plan { result.plan ≡ plan_of never }
{
    unfailing(BaseDriver::new(Speaker::new()))
}

// The disk of a pile, without its drivers.
pub fn into_disk(pile: DiskPile) -> Disk
    ensures { result ≡ pile.below.device }
{
    pile.into_below().into_device()
}

// A layer in which no call fails.
fn unfailing<D: Driver>(below: D) -> Faulty<D>
    ensures fine { D.Driver.ok below → LayerOk D.Driver.state D.Driver.ok result }
    ensures below { result.below ≡ below }
    ensures down { result.down ≡ shut (pair 2 0) }
    ensures plan { result.plan ≡ plan_of never }
{
    let none = Failure::default();
    Faulty::new(below, none.number, none.way)
}
