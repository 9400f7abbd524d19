// Every refusal of a driver, in the order in which its reasons are tried.
use crate::asking::{TAG, collect, submit};
use base::BaseDriver;
use block::Disk;
use driver::{Collected, Driver};
use model::{Fault, Refusal};
use network::Wire;
use sound::Speaker;
use std::process::Abort;
use std::test::Fail;

// What a class says of a request, in the order of its tests.
const REFUSED: [Result<(), Refusal>; 3] = [
    Err(Refusal::Kind),
    Err(Refusal::Address),
    Err(Refusal::Payload),
];

const DOWN: Refusal = Refusal::Failed(Fault { layer: 1, place: 0 });

// A driver that is down answers FAILED before any other reason is tried, and tells what it can.
fn down<D: Driver>(rt: &impl Abort, driver: &mut D, reach: u32) {
    assert_eq!(rt; (driver.get(9), driver.joined(9)), (Err(DOWN), Err(DOWN)));
    let refused = [
        driver.set(9, 9),
        driver.join(9),
        driver.leave(9),
        submit(driver, 9, 9, &[]),
    ];
    assert_eq!(rt; refused, [Err(DOWN); 4]);
    let told = (collect(driver, 0), driver.waiting(), driver.reach());
    assert_eq!(rt; told, (Err(DOWN), 0, reach));
}

// The reasons of settings and names, with a key and a name that are the last of the class.
fn tables<D: Driver>(rt: &impl Abort, driver: &mut D, greatest: u32, name: u32) {
    assert_eq!(rt; driver.get(3), Err(Refusal::Setting));
    let set = [
        driver.set(3, 4294967295),
        driver.set(2, greatest),
        driver.set(2, greatest.saturating_add(1)),
    ];
    assert_eq!(rt; set, [Err(Refusal::Setting), Ok(()), Err(Refusal::Value)]);
    assert_eq!(rt; driver.get(2), Ok(greatest));
    let past = name.saturating_add(1);
    let refused = (driver.join(past), driver.leave(past), driver.joined(past));
    assert_eq!(rt;
        refused,
        (Err(Refusal::Name), Err(Refusal::Name), Err(Refusal::Name))
    );
    let noted = (
        driver.join(name),
        driver.joined(name),
        driver.leave(name),
        driver.joined(name),
    );
    assert_eq!(rt; noted, (Ok(()), Ok(true), Ok(()), Ok(false)));
}

#[test]
fn block(rt: HostRuntime) -> Result<(), Fail> {
    let mut driver = BaseDriver::new(Disk::new(vec![in rt.alloc(); 0u8; 1024]?));
    down(&rt, &mut driver, 2);
    assert_eq!(rt; driver.restart(), Ok(()));
    tables(&rt, &mut driver, 3600, 3);
    let refused = [
        submit(&mut driver, 4, 2, &[1]),
        submit(&mut driver, 1, 2, &[1]),
        submit(&mut driver, 1, 1, &[1]),
    ];
    assert_eq!(rt; refused, REFUSED);
    assert_eq!(rt; collect(&mut driver, 511), Err(Refusal::Answer));
    for _ in 0..16 {
        assert_eq!(rt; submit(&mut driver, 3, 0, &[]), Ok(()));
    }
    let one_more = (submit(&mut driver, 2, 0, &[1u8; 512]), driver.waiting());
    assert_eq!(rt; one_more, (Err(Refusal::Full), 16));
    let done = Collected::Done {
        tag: TAG,
        length: 0,
    };
    let first = (collect(&mut driver, 512), driver.waiting());
    assert_eq!(rt; first, (Ok(done), 15));
    driver.stop();
    down(&rt, &mut driver, 2);
    Ok(())
}

#[test]
fn sound(rt: HostRuntime) {
    let mut driver = BaseDriver::new(Speaker::new());
    down(&rt, &mut driver, 1);
    assert_eq!(rt; driver.restart(), Ok(()));
    tables(&rt, &mut driver, 200, 7);
    let refused = [
        submit(&mut driver, 3, 1, &[1]),
        submit(&mut driver, 1, 1, &[1]),
        submit(&mut driver, 1, 0, &[1]),
    ];
    assert_eq!(rt; refused, REFUSED);
    assert_eq!(rt; collect(&mut driver, 7), Err(Refusal::Answer));
    for _ in 0..8 {
        assert_eq!(rt; submit(&mut driver, 1, 0, &[1u8; 1024]), Ok(()));
    }
    let more = [
        submit(&mut driver, 1, 0, &[1, 1]),
        submit(&mut driver, 2, 0, &[]),
    ];
    assert_eq!(rt; more, [Err(Refusal::Room), Ok(())], "no bytes still fit");
}

#[test]
fn network(rt: HostRuntime) {
    let mut driver = BaseDriver::new(Wire::new(Vec::new(rt.alloc())));
    down(&rt, &mut driver, 1);
    assert_eq!(rt; driver.restart(), Ok(()));
    tables(&rt, &mut driver, 1000, 0xEFFFFFFF);
    let refused = [
        submit(&mut driver, 4, 1, &[1]),
        submit(&mut driver, 1, 1, &[1]),
        submit(&mut driver, 1, 0, &[1u8; 13]),
    ];
    assert_eq!(rt; refused, REFUSED);
    assert_eq!(rt;
        submit(&mut driver, 1, 0, &[1u8; 1515]),
        Err(Refusal::Payload)
    );
    assert_eq!(rt; collect(&mut driver, 1513), Err(Refusal::Answer));
    for _ in 0..5 {
        assert_eq!(rt; submit(&mut driver, 1, 0, &[1u8; 1514]), Ok(()));
    }
    let last = [
        submit(&mut driver, 1, 0, &[1u8; 623]),
        submit(&mut driver, 1, 0, &[1u8; 622]),
    ];
    assert_eq!(rt; last, [Err(Refusal::Room), Ok(())]);
}

// With 24 groups joined a new one meets ROLL, one of them does not.
#[test]
fn roll(rt: HostRuntime) {
    let mut driver = BaseDriver::new(Wire::new(Vec::new(rt.alloc())));
    assert_eq!(rt; driver.restart(), Ok(()));
    for group in 0xE0000000..0xE0000018u32 {
        assert_eq!(rt; driver.join(group), Ok(()));
    }
    let calls = [
        driver.join(0xE0000018),
        driver.join(0xE0000017),
        driver.leave(0xE0000000),
        driver.join(0xE0000018),
    ];
    assert_eq!(rt; calls, [Err(Refusal::Roll), Ok(()), Ok(()), Ok(())]);
}
