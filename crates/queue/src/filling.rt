// A queue is made empty, and requests are added.
ghost use Rattle.std.specs.Prelude.{◌≡◌, ◌+◌, ◌<◌, ◌≤◌, [], ◌∷◌, ◌++◌, length, is_ok, if◌then◌else◌, OnOk};
ghost use Rattle.heads.specs.Limits.{most, capacity};
ghost use Rattle.heads.specs.Kept.{fresh, verdict, weight};

use crate::payloads::Payloads;
use crate::queue::{CAPACITY, MOST, Queue};
use arrayvec::ArrayVec;
use heads::Head;
use model::{Header, Refusal};

impl Queue {
    // An empty queue.
    pub fn new() -> Queue
        ensures { result ≡ [] }
    {
        Queue {
            heads: ArrayVec::new(),
            payloads: Payloads::new(),
        }
    }

    // Adds a request as the youngest, not handed on yet; a refused one changes nothing.
    #[tactic(auto, using(heads::proofs::Laid::length_laid, heads::proofs::Laid::weight_laid, heads::proofs::Laid::laid_behind))]
    pub fn push(&mut self, header: Header, payload: &[u8]) -> Result<(), Refusal>
        ensures verdict { result ≡ verdict self.old (length payload.now) }
        ensures after { self.new ≡ (if is_ok result then self.old ++ fresh header payload.now ∷ [] else self.old) }
    {
        let size = payload.len();
        self.admit(size)?;
        self.payloads.append(payload);
        self.heads.push(Head {
            header,
            size,
            handed: false,
        });
        Ok(())
    }

    // Whether a request with n payload bytes is taken.
    fn admit(&self, n: usize) -> Result<(), Refusal>
        ensures verdict { result ≡ verdict self.now n }
        ensures ok { OnOk result ((length self.now < most) × (weight self.now + n ≤ capacity)) }
    {
        if self.len() >= MOST {
            return Err(Refusal::Full);
        }
        if n > CAPACITY - self.used() {
            return Err(Refusal::Room);
        }
        Ok(())
    }
}
