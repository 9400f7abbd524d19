// One session of the gateway, over drivers of any make. The program `gateway` ends where a driver does not start, and
// tells the blocks used in another place: one function with two flags for that would be no plainer than both. What the
// two do between, to take a burst, is the library's.
use block::Block;
use burst::{mend, report_counters, start, take_burst};
use driver::Driver;
use intake::Intake;
use network::Network;
use piles::TONE;
use sound::Sound;
use std::io;

// Starts the drivers, takes the frames that arrive, and gives the disk's driver back.
pub(crate) fn run<
    N: Driver<C = Network> + Drop,
    B: Driver<C = Block> + Drop,
    S: Driver<C = Sound> + Drop,
>(rt: &impl Print, mut wire: N, mut disk: B, mut speaker: S, arrivals: &[u8]) -> io::Result<B> {
    start_all(rt, &mut wire, &mut disk, &mut speaker)?;
    let mut intake = Intake::new(wire, disk, speaker);
    take_burst(rt, &mut intake, &TONE, arrivals)?;
    let (wire, store, speaker) = intake.into_parts();
    let used = store.used();
    let disk = store.into_driver();
    report_drivers(rt, wire, used, disk.reach(), speaker)?;
    Ok(disk)
}

// Starts each driver, the network last; one that stays down is told of, and the session goes on.
fn start_all<N: Driver<C = Network>, B: Driver<C = Block>, S: Driver<C = Sound>>(
    rt: &impl Print,
    wire: &mut N,
    disk: &mut B,
    speaker: &mut S,
) -> io::Result<()> {
    let _ = start(rt, disk)?;
    let _ = start(rt, speaker)?;
    let _ = start(rt, wire)?;
    Ok(())
}

// Tells how many blocks are used, and what the drivers have counted.
fn report_drivers<N: Driver<C = Network> + Drop, S: Driver<C = Sound> + Drop>(
    rt: &impl Print,
    mut wire: N,
    used: u32,
    reach: u32,
    mut speaker: S,
) -> io::Result<()> {
    println!(rt; "blocks used: {used} of {reach}")?;
    mend(rt, &mut wire)?;
    report_counters(rt, &mut wire, &mut speaker)
}
