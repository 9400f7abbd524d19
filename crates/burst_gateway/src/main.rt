// The gateway over drivers of any make: it takes the frames that arrive on a wire, writes each to a disk and reads it
// back, announces it on a speaker and acknowledges it on the wire. With two numbers as arguments, the network call of
// the first number fails in the way of the second. What it stored is looked for through a new driver.
#![tactic(auto)]

mod session;

use archive::Store;
use base::BaseDriver;
use block::BLOCK;
use burst::count_stored;
use driver::Driver;
use piles::{DISK_BLOCKS, disk_pile, into_disk, planned, speaker_pile, wire_pile};
use session::run;
use std::io::Read;

// The lines that are those of `gateway` too are one call each of what both share.
fn main(rt: HostRuntime) -> anyhow::Result<()> {
    let failure = planned(&rt)?;
    let mut arrivals = Vec::new(rt.alloc());
    rt.stdin().read_to_end(&mut arrivals)?;
    let memory = vec![in rt.alloc(); 0u8; DISK_BLOCKS * BLOCK]?;
    let wire = wire_pile(arrivals.clone()?, failure);
    let disk = run(&rt, wire, disk_pile(memory), speaker_pile(), &arrivals)?;
    let mut driver = BaseDriver::new(into_disk(disk));
    let _ = driver.restart();
    let found = count_stored(&arrivals, &mut Store::new(driver));
    println!(rt; "frames found on the disk without its drivers: {found}")?;
    Ok(())
}
