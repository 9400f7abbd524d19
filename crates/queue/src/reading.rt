// What a queue keeps is shown; nothing changes.
ghost use Rattle.std.specs.Prelude.{◌≡◌, ◌≤◌, length};
ghost use Rattle.std.specs.List.{slice_get};
ghost use Rattle.std.specs.Option.{option_map};
ghost use Rattle.heads.specs.Limits.{most, capacity};
ghost use Rattle.heads.specs.Heads.{total};
ghost use Rattle.heads.specs.Kept.{head_of, payload_of, weight};

use crate::queue::Queue;
use heads::Head;

impl Queue {
    // How many requests are kept.
    #[tactic(auto, using(heads::proofs::Laid::length_laid))]
    pub fn len(&self) -> usize
        ensures value { result ≡ length self.now }
        ensures bound { result ≤ most }
    {
        self.heads.len()
    }

    // How many bytes their payloads have, in all.
    #[tactic(auto, using(heads::proofs::Laid::weight_laid))]
    pub fn used(&self) -> usize
        ensures value { result ≡ weight self.now }
        ensures bound { result ≤ capacity }
    {
        self.payloads.len()
    }

    // The oldest request, but its payload.
    pub fn front(&self) -> Option<Head>
        ensures { result ≡ option_map head_of (slice_get self.now 0) }
    {
        self.request(0)
    }

    // The i-th request, but its payload; past the last there is none.
    #[tactic(auto, using(heads::proofs::Laid::head_at, std::proofs::lemmas::Option::gets))]
    pub fn request(&self, i: usize) -> Option<Head>
        ensures { result ≡ option_map head_of (slice_get self.now i) }
    {
        self.heads.get(i).copied()
    }

    // The payload of the i-th request; past the last there is none.
    #[tactic(auto, using(heads::proofs::Laid::payload_at, std::proofs::lemmas::Option::gets))]
    pub fn payload(&self, i: usize) -> Option<&[u8]>
        ensures { option_map (λ x. x.now) result ≡ option_map payload_of (slice_get self.now i) }
    {
        let head = self.heads.get(i)?;
        let before = total_size(&self.heads[..i]);
        Some(self.payloads.part(before, head.size))
    }
}

// How many payload bytes the requests of these heads have, in all.
fn total_size(heads: &[Head]) -> usize
    requires { total heads.now ≤ capacity }
    ensures { result ≡ total heads.now }
{
    heads.iter().map(|head| head.size).sum()
}
