use block::Block;
use model::Class;
use network::Network;
use sound::Sound;
use std::process::Abort;

// What a class is to say: of keys, their first and greatest values, or none; of names; of kinds, whether there is
// such a kind and whether it is declared; of the kinds and sizes of payloads.
#[derive(Clone, Copy, PartialEq, Eq, Debug)]
struct Saying {
    keys: [(u64, Option<(u64, u64)>); 4],
    names: [(u32, bool); 4],
    kinds: [(u8, bool, bool); 5],
    sizes: [(u8, usize, bool); 4],
}

fn says<C: Class>(rt: &impl Abort, saying: Saying) {
    for (key, row) in saying.keys {
        let (initial, greatest) = row.unwrap_or((0, 0));
        let said = (C::has_setting(key), C::initial(key), C::greatest(key));
        assert_eq!(rt; said, (row.is_some(), initial, greatest));
    }
    for (name, has) in saying.names {
        assert_eq!(rt; C::has_name(name), has);
    }
    for (kind, has, declared) in saying.kinds {
        let said = (C::has_kind(kind), C::is_declared(kind));
        assert_eq!(rt; said, (has, declared));
    }
    for (kind, size, takes) in saying.sizes {
        assert_eq!(rt; C::takes(kind, size), takes);
    }
}

#[test]
fn block(rt: HostRuntime) {
    says::<Block>(
        &rt,
        Saying {
            keys: [
                (0, Some((0, 1))),
                (1, Some((8, 64))),
                (2, Some((0, 3600))),
                (3, None),
            ],
            names: [(0, true), (3, true), (4, false), (u32::MAX, false)],
            kinds: [
                (0, false, false),
                (1, true, true),
                (2, true, true),
                (3, true, true),
                (4, false, false),
            ],
            sizes: [
                (2, 512, true),
                (2, 511, false),
                (1, 512, false),
                (1, 0, true),
            ],
        },
    );
}

#[test]
fn sound(rt: HostRuntime) {
    says::<Sound>(
        &rt,
        Saying {
            keys: [
                (0, Some((256, 256))),
                (1, Some((2, 3))),
                (2, Some((100, 200))),
                (3, None),
            ],
            names: [(0, true), (7, true), (8, false), (u32::MAX, false)],
            kinds: [
                (0, false, false),
                (1, true, false),
                (2, true, true),
                (3, false, false),
                (4, false, false),
            ],
            sizes: [
                (1, 2, true),
                (1, 3, false),
                (1, 1024, true),
                (1, 1026, false),
            ],
        },
    );
}

#[test]
fn network(rt: HostRuntime) {
    says::<Network>(
        &rt,
        Saying {
            keys: [
                (0, Some((0, 1))),
                (1, Some((1514, 1514))),
                (2, Some((0, 1000))),
                (3, None),
            ],
            names: [
                (0xDFFFFFFF, false),
                (0xE0000000, true),
                (0xEFFFFFFF, true),
                (0xF0000000, false),
            ],
            kinds: [
                (0, false, false),
                (1, true, false),
                (2, true, false),
                (3, true, true),
                (4, false, false),
            ],
            sizes: [
                (1, 13, false),
                (1, 14, true),
                (1, 1514, true),
                (1, 1515, false),
            ],
        },
    );
}
