// What the gateway sends back, and what its devices count.
#![tactic(auto)]

ghost use Rattle.std.specs.Prelude.{◌≡◌, length};
ghost use Rattle.reply.specs.Replies.{reply_to, le_at};

// Bytes are named one by one, since they change places.
// The header of an acknowledgement: back from the frame's destination to its source, of the same type.
pub fn acknowledgement(frame: &[u8]) -> Option<[u8; 14]>
    ensures { result ≡ reply_to frame.now }
{
    let [a, b, c, d, e, f, g, h, i, j, k, l, m, n, ..] = frame else {
        return None;
    };
    Some([*g, *h, *i, *j, *k, *l, *a, *b, *c, *d, *e, *f, *m, *n])
}

// Two counters from the front of an answer, and zeros where it is too short: it cannot fail.
pub fn counters(answer: &[u8]) -> (u32, u32)
    ensures first { result.0 ≡ le_at answer.now 0 }
    ensures second { result.1 ≡ le_at answer.now 4 }
{
    let [a, b, c, d, e, f, g, h, ..] = answer else {
        return (0, 0);
    };
    (
        u32::from_le_bytes([*a, *b, *c, *d]),
        u32::from_le_bytes([*e, *f, *g, *h]),
    )
}
