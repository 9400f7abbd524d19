// What a client says of a request beside its bytes.
ghost use Rattle.std.specs.Prelude.{◌≡◌};

// A request without its payload.
#[derive(Clone, Copy, PartialEq, Eq, Debug, Default)]
pub struct Header {
    pub tag: u32,
    // a number, by a rule: a client may pass any, and what is no kind meets a refusal of its own
    pub kind: u8,
    pub address: u32,
}

impl Header {
    // The header of a request at the address 0, whose tag does not matter.
    pub fn of_kind(kind: u8) -> Header
        ensures { result ≡ record { tag = 0; kind = kind; address = 0 } }
    {
        Header {
            tag: 0,
            kind,
            address: 0,
        }
    }
}
