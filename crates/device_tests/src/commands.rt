use device::Command;

// A command of a kind, at address 0.
pub(crate) fn at<O: Into<u8>>(level: u32, op: O, payload: &[u8]) -> Command<'_> {
    Command {
        level,
        kind: op.into(),
        address: 0,
        payload,
    }
}
