// A wire: it takes the frames that arrive in order, and counts what is sent.
ghost use Rattle.std.specs.Prelude.{◌≡◌, ◌≤◌, length};

#[derive(Drop)]
pub struct Wire {
    pub(crate) arrivals: Vec<u8>,
    pub(crate) place: usize,
    pub(crate) sent: u32,
    pub(crate) total: u32,
    ghost within: { place ≤ length arrivals.items },
}
