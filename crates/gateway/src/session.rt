// One session of the gateway, over drivers of any make: over the types of its piles the check takes longer.
use block::Block;
use burst::{mend, report_speaker, report_wire, start_as, take_burst};
use driver::Driver;
use intake::Intake;
use network::Network;
use piles::{DISK_BLOCKS, TONE};
use sound::Sound;
use std::io;

// Starts the drivers, takes the frames that arrive, and gives the disk's driver back; nothing where one does not start.
pub(crate) fn run<
    N: Driver<C = Network> + Drop,
    B: Driver<C = Block> + Drop,
    S: Driver<C = Sound> + Drop,
>(
    rt: &impl Print,
    mut wire: N,
    mut disk: B,
    mut speaker: S,
    arrivals: &[u8],
) -> io::Result<Option<B>> {
    if !started(rt, &mut wire, &mut disk, &mut speaker)? {
        return Ok(None);
    }
    let mut intake = Intake::new(wire, disk, speaker);
    take_burst(rt, &mut intake, &TONE, arrivals)?;
    let (wire, store, speaker) = intake.into_parts();
    report_drivers(rt, wire, store.used(), speaker)?;
    Ok(Some(store.into_driver()))
}

// Starts the drivers, and says whether all are up.
fn started<N: Driver<C = Network>, B: Driver<C = Block>, S: Driver<C = Sound>>(
    rt: &impl Print,
    wire: &mut N,
    disk: &mut B,
    speaker: &mut S,
) -> io::Result<bool> {
    // the network's restart is the first call that may fail
    let others = disk.restart().is_ok() && speaker.restart().is_ok();
    let up = start_as(rt, "start", wire)? && others;
    if !up {
        println!(rt; "the drivers did not start")?;
    }
    Ok(up)
}

// Tells what the drivers have counted, and how many blocks are used.
fn report_drivers<N: Driver<C = Network> + Drop, S: Driver<C = Sound> + Drop>(
    rt: &impl Print,
    mut wire: N,
    used: u32,
    mut speaker: S,
) -> io::Result<()> {
    mend(rt, &mut wire)?;
    report_wire(rt, &mut wire)?;
    println!(rt; "blocks used: {used} of {DISK_BLOCKS}")?;
    report_speaker(rt, &mut speaker)
}
