// Counting what arrived.
ghost use Rattle.std.specs.Prelude.{◌≡◌};
ghost use Rattle.arrivals.specs.Runs.{frames_of};
ghost use Rattle.arrivals.specs.Surveys.{survey_of, survey_frames};

use crate::frames::is_group;
use crate::runs::frames_in;
use crate::survey::Survey;

// Counts the frames of a run of arrivals, up to where the arrivals end.
#[tactic(auto, using(crate::proofs::Counting::counted_frames))]
pub fn count_frames(bytes: &[u8]) -> Survey
    ensures survey { result ≡ survey_of bytes.now }
    ensures frames { result ≡ survey_frames (frames_of bytes.now) }
{
    let mut seen = Survey::default();
    for frame in frames_in(bytes) {
        seen.frames += 1;
        seen.groups += usize::from(is_group(frame));
        seen.used += 2 + frame.len();
    }
    seen
}
