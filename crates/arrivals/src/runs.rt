// All frames of a run of arrivals.
ghost use Rattle.std.specs.Prelude.{◌≡◌};
ghost use Rattle.std.specs.Iterator.{YieldsFirstRef, item_count};
ghost use Rattle.arrivals.specs.Runs.{frames_of, frames_left};

use crate::frames::split_frame;

// The frames that are left, to a group or not, up to where the arrivals end.
#[derive(Drop)]
pub struct Frames<'a> {
    left: &'a [u8],
}

// The frames of a run of arrivals.
pub fn frames_in(bytes: &[u8]) -> Frames<'_>
    ensures { frames_left result ≡ frames_of bytes.now }
{
    Frames { left: bytes }
}

impl<'a> Iterator for Frames<'a> {
    type Item = &'a [u8];

    ghost next_gives = { YieldsFirstRef frames_left };

    ghost remaining = { item_count frames_left };

    fn next(&mut self) -> Option<&'a [u8]> {
        let (frame, rest) = split_frame(self.left)?;
        self.left = rest;
        Some(frame)
    }
}
