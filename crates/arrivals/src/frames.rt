// The frames of the arrivals, one after the other.
ghost use Rattle.std.specs.Prelude.{◌≡◌, ◌≢◌, ℕ, ◌+◌, ◌-◌, ◌≤◌, false, List, length, drop, [], ◌∷◌, MatchOption, IfSome, Some, None};
ghost use Rattle.arrivals.specs.Frames.{next_frame, passes, split, to_group};
ghost use Rattle.arrivals.specs.Runs.{frames_of, taken};

// A frame has so many bytes at least.
pub const SHORTEST_FRAME: usize = 14;

// A frame has so many bytes at most.
pub const LONGEST_FRAME: usize = 1514;

// The first frame of the arrivals, to a group or not, and what follows it; none where the arrivals end.
pub fn split_frame(bytes: &[u8]) -> Option<(&[u8], &[u8])>
    ensures parts { MatchOption result (split bytes.now ≡ None) (λ parts. split bytes.now ≡ Some (parts.0.now, parts.1.now)) }
    ensures short { IfSome result (λ parts. (14 ≤ length parts.0.now) × (length parts.0.now ≤ 1514)) }
{
    // Two named bytes and the rest: a rule of the project for how an arrival is split.
    let [high, low, rest @ ..] = bytes else {
        return None;
    };
    let size = usize::from(u16::from_be_bytes([*high, *low]));
    if (SHORTEST_FRAME..=LONGEST_FRAME).contains(&size) {
        rest.split_at_checked(size)
    } else {
        None
    }
}

// Whether a frame goes to a group: the first byte of its address is odd.
pub fn is_group(frame: &[u8]) -> bool
    ensures { result ≡ to_group frame.now }
{
    frame.first().is_some_and(|first| first % 2 == 1)
}

// What is left once frames to a group are passed over at level 0: the next frame stands in front there, or the arrivals
// end. The call on itself comes last, and one slice is its whole answer, so a frame passed over takes little stack.
fn skip_groups(level: u32, bytes: &[u8]) -> &[u8]
    ensures moved { (next_frame level bytes.now).moved ≡ (length bytes.now - length result.now) + (next_frame level result.now).moved }
    ensures frame { (next_frame level bytes.now).frame ≡ (next_frame level result.now).frame }
    ensures same { taken level (frames_of bytes.now) ≡ taken level (frames_of result.now) }
    ensures left { result.now ≡ drop (length bytes.now - length result.now) bytes.now }
    ensures within { length result.now ≤ length bytes.now }
    ensures first { (frame rest : List ℕ) → split result.now ≡ Some (frame, rest) → passes level frame ≡ false }
{
    let Some((frame, rest)) = split_frame(bytes) else {
        return bytes;
    };
    if level == 0 && is_group(frame) {
        // The same question is put to what follows, as a call on itself: a rule of the project.
        skip_groups(level, rest)
    } else {
        bytes
    }
}

// How far the place moves, and the next frame, empty where none arrives; level 0 passes over frames to a group.
pub fn next_frame(level: u32, bytes: &[u8]) -> (usize, &[u8])
    ensures moved { result.0 ≡ (next_frame level bytes.now).moved }
    ensures frame { result.1.now ≡ (next_frame level bytes.now).frame }
    ensures within { result.0 ≤ length bytes.now }
    ensures short { length result.1.now ≤ 1514 }
    ensures whole { result.1.now ≢ [] → 14 ≤ length result.1.now }
    ensures ends { result.1.now ≡ [] → taken level (frames_of bytes.now) ≡ [] }
    ensures follows { result.1.now ≢ [] → taken level (frames_of bytes.now) ≡ result.1.now ∷ taken level (frames_of (drop result.0 bytes.now)) }
{
    let left = skip_groups(level, bytes);
    let passed = bytes.len() - left.len();
    match split_frame(left) {
        Some((frame, _)) => (passed + 2 + frame.len(), frame),
        None => (passed, &[]),
    }
}

// The same, with no frame where none arrives. The count stands beside the Option, since what was passed over stays
// passed where no frame is found. That a frame has 14 to 1514 bytes stands in two clauses (`short`), since a slice has
// no invariant of its own.
pub fn next_arrival(level: u32, bytes: &[u8]) -> (usize, Option<&[u8]>)
    ensures moved { result.0 ≡ (next_frame level bytes.now).moved }
    ensures frame { MatchOption result.1 ((next_frame level bytes.now).frame ≡ []) (λ frame. frame.now ≡ (next_frame level bytes.now).frame) }
    ensures within { result.0 ≤ length bytes.now }
    ensures short { IfSome result.1 (λ frame. (14 ≤ length frame.now) × (length frame.now ≤ 1514)) }
    ensures follows { MatchOption result.1 (taken level (frames_of bytes.now) ≡ []) (λ frame. taken level (frames_of bytes.now) ≡ frame.now ∷ taken level (frames_of (drop result.0 bytes.now))) }
{
    let (moved, frame) = next_frame(level, bytes);
    if frame.is_empty() {
        (moved, None)
    } else {
        (moved, Some(frame))
    }
}
