// Stores a burst of orders: takes the frames that arrive on a wire, writes each to a disk and reads it
// back, announces it on a speaker and acknowledges it on the wire, all through drivers. With two numbers
// as arguments, the network call of the first number fails in the way of the second.
#![tactic(auto)]

mod session;

use block::BLOCK;
use burst::count_stored;
use piles::{DISK_BLOCKS, disk_pile, into_disk, planned, speaker_pile, wire_pile};
use session::run;
use std::io::Read;
use store::Store;

fn main(rt: HostRuntime) -> anyhow::Result<()> {
    let failure = planned(&rt)?;
    let mut arrivals = Vec::new(rt.alloc());
    rt.stdin().read_to_end(&mut arrivals)?;
    let memory = vec![in rt.alloc(); 0u8; DISK_BLOCKS * BLOCK]?;
    let wire = wire_pile(arrivals.clone()?, failure);
    let Some(disk) = run(&rt, wire, disk_pile(memory), speaker_pile(), &arrivals)? else {
        return Ok(());
    };
    let found = count_stored(&arrivals, &mut Store::new(into_disk(disk)));
    println!(rt; "frames found on the disk without its drivers: {found}")?;
    Ok(())
}
