// What a queue keeps of a request, but its payload.
use model::Header;

// Its default stands in the unused places of a vector in fixed memory.
#[derive(Clone, Copy, PartialEq, Eq, Debug, Default)]
pub struct Head {
    pub header: Header,
    // the number of bytes of the payload
    pub size: usize,
    // whether the request has been handed on
    pub handed: bool,
}
