// The payloads of the requests, one after another.
ghost use Rattle.std.specs.Prelude.{◌≡◌, ◌+◌, ◌≤◌, [], ◌++◌, length, take, drop};
ghost use Rattle.heads.specs.Limits.{capacity};

use crate::queue::CAPACITY;
use std::marker::Model;

// Twice the capacity: payloads then move only once more bytes were removed, since they last moved,
// than are to move now. So a byte moves less than once on average.
const STORE: usize = 2 * CAPACITY;

// The bytes that stand in the store from `start` on.
#[derive(Drop)]
pub(crate) struct Payloads {
    // a fixed array and a start: memory is fixed, removing moves no payload byte, and each payload is one slice
    store: [u8; STORE],
    start: usize,
    len: usize,
}

// Contracts see the bytes.
impl Model for Payloads {
    ghost use Rattle.std.specs.Prelude.{ℕ, ◌+◌, ◌*◌, ◌≤◌, List, take, drop};
    ghost use Rattle.heads.specs.Limits.{capacity};

    ghost Value = { List ℕ };

    ghost view = { λ p. take p.len (drop p.start p.store) };

    ghost invariant = { λ p. p.start + p.len ≤ 2 * capacity };
}

impl Payloads {
    // No bytes.
    pub(crate) fn new() -> Payloads
        ensures { result ≡ [] }
    {
        Payloads {
            store: [0; STORE],
            start: 0,
            len: 0,
        }
    }

    // How many bytes there are.
    pub(crate) fn len(&self) -> usize
        ensures { result ≡ length self.now }
    {
        self.len
    }

    // The n bytes from `at` on.
    #[tactic(auto, using(crate::proofs::Bytes::part_is))]
    pub(crate) fn part(&self, at: usize, n: usize) -> &[u8]
        requires { at + n ≤ length self.now }
        ensures { result.now ≡ take n (drop at self.now) }
    {
        let from = self.start + at;
        &self.store[from..from + n]
    }

    // Adds bytes behind the others, which move to the front of the store if the new ones would pass its end.
    pub(crate) fn append(&mut self, bytes: &[u8])
        requires { length self.old + length bytes.now ≤ capacity }
        ensures { self.new ≡ self.old ++ bytes.now }
    {
        if bytes.len() > STORE - (self.start + self.len) {
            self.store.copy_within(self.start..self.start + self.len, 0);
            self.start = 0;
        }
        let end = self.start + self.len;
        self.store[end..end + bytes.len()].copy_from_slice(bytes);
        self.len += bytes.len();
    }

    // Removes the first n bytes.
    #[tactic(auto, using(crate::proofs::Bytes::rest_is))]
    pub(crate) fn skip(&mut self, n: usize)
        requires { n ≤ length self.old }
        ensures { self.new ≡ drop n self.old }
    {
        self.start += n;
        self.len -= n;
    }

    // Removes every byte.
    pub(crate) fn clear(&mut self)
        ensures { self.new ≡ [] }
    {
        self.start = 0;
        self.len = 0;
    }
}
