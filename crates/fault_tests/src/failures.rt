// The fault layer: which call fails, with what pair, and what it leaves below.
use base::BaseDriver;
use block::Disk;
use driver::{Driver, Header};
use fault::Faulty;
use model::{Fault, Refusal};
use sound::Speaker;
use std::test::Fail;

// A request of kind 2, at address 0.
const HEADER: Header = Header {
    tag: 7,
    kind: 2,
    address: 0,
};

fn failed(place: u32) -> Refusal {
    Refusal::Failed(Fault { layer: 2, place })
}

// The counted calls in order: restart, set, join, leave, submit, collect; and what the driver then is.
fn run<D: Driver>(driver: &mut D) -> Result<u32, Refusal> {
    let mut buffer = [0u8; 8];
    driver.restart()?;
    let _ = driver.joined(9);
    driver.set(1, 1)?;
    driver.join(0)?;
    driver.leave(0)?;
    driver.submit(HEADER, &[])?;
    let _ = driver.collect(&mut buffer)?;
    driver.get(1)
}

// Whichever call fails, in either way: its pair is repeated, a stop makes it (2, 0), and a restart brings it back.
#[test]
fn each_call(rt: HostRuntime) {
    for call in 1..7u32 {
        for way in 0..2u32 {
            let mut driver = Faulty::new(BaseDriver::new(Speaker::new()), call, way);
            let fails = [driver.get(0), run(&mut driver)];
            assert_eq!(rt; fails, [Err(failed(0)), Err(failed(call))]);
            let down = (driver.set(0, 0), driver.waiting());
            assert_eq!(rt; down, (Err(failed(call)), 0));
            driver.stop();
            let back = (driver.join(0), run(&mut driver));
            assert_eq!(rt; back, (Err(failed(0)), Ok(1)));
        }
    }
}

// A collect that fails in way 0 is not made below; in another way it is, and the buffer stays as it was.
#[test]
fn dropped_answer(rt: HostRuntime) -> Result<(), Fail> {
    for (way, written) in [(0u32, 0u8), (1, 5)] {
        let disk = Disk::new(vec![in rt.alloc(); 0u8; 512]?);
        let mut driver = Faulty::new(BaseDriver::new(disk), 3, way);
        let started = [driver.restart(), driver.submit(HEADER, &[5u8; 512])];
        assert_eq!(rt; started, [Ok(()); 2]);
        let mut buffer = [9u8; 512];
        let failing = driver.collect(&mut buffer).is_err();
        assert_eq!(rt; (failing, buffer[0]), (true, 9));
        assert_eq!(rt; driver.get(0), Err(failed(3)));
        let memory = driver.into_below().into_device().into_memory();
        assert_eq!(rt; memory.first().copied(), Some(written));
    }
    Ok(())
}

// Numbers go up to 4294967295, later calls get none, and no call gets 0.
#[test]
fn last_number(rt: HostRuntime) {
    let below = BaseDriver::new(Speaker::new());
    let mut last = Faulty::counted_from(below, 4294967294, 4294967295, 0);
    let told = (last.restart(), run(&mut last));
    assert_eq!(rt; told, (Err(failed(4294967295)), Ok(1)));
    let below = BaseDriver::new(Speaker::new());
    let mut never = Faulty::counted_from(below, 4294967295, 0, 0);
    assert_eq!(rt; run(&mut never), Ok(1));
}

// Two layers: FAILED from below takes the upper one down and passes whole.
#[test]
fn passed_whole(rt: HostRuntime) {
    let inner = Faulty::new(BaseDriver::new(Speaker::new()), 2, 1);
    let mut driver = Faulty::new(inner, 9, 0);
    let calls = [driver.restart(), driver.set(0, 1)];
    assert_eq!(rt; calls, [Ok(()), Err(failed(2))]);
    let level = (driver.get(0), driver.restart(), driver.get(0));
    assert_eq!(rt; level, (Err(failed(2)), Ok(()), Ok(256)));
}
