use model::{Fault, Refusal};
use std::alloc::AllocError;

// Every refusal, in the order of their numbers, with the name that it prints.
const ALL: [(Refusal, &str); 13] = [
    (
        Refusal::Failed(Fault { layer: 2, place: 7 }),
        "FAILED (2, 7)",
    ),
    (Refusal::Setting, "SETTING"),
    (Refusal::Value, "VALUE"),
    (Refusal::Name, "NAME"),
    (Refusal::Kind, "KIND"),
    (Refusal::Address, "ADDRESS"),
    (Refusal::Payload, "PAYLOAD"),
    (Refusal::Answer, "ANSWER"),
    (Refusal::Roll, "ROLL"),
    (Refusal::Full, "FULL"),
    (Refusal::Room, "ROOM"),
    (Refusal::Phase, "PHASE"),
    (Refusal::Unfinished(3), "UNFINISHED 3"),
];

// Every refusal has its own number, from 1 to 13; a failure alone has a pair.
#[test]
fn numbers(rt: HostRuntime) {
    for (number, (refusal, _)) in (1u32..).zip(ALL) {
        let told = (u32::from(refusal), refusal.fault().is_some());
        assert_eq!(rt; told, (number, number == 1));
    }
    assert_eq!(rt; ALL.len(), 13);
}

#[test]
fn names(rt: HostRuntime) -> Result<(), AllocError> {
    for (refusal, name) in ALL {
        assert_eq!(rt; refusal.to_string(rt.alloc())?.as_str(), name);
    }
    Ok(())
}
