// The same queue as a plain list of requests, each with memory of its own.
use model::{Header, Refusal};
use queue::{Head, Queue};
use std::alloc::{AllocError, Global};
use std::collections::VecDeque;
use std::process::Abort;
use std::test::*;

// A header by its three numbers.
pub(crate) fn header(tag: u32, kind: u8, address: u32) -> Header {
    Header { tag, kind, address }
}

#[derive(Drop)]
struct Plain {
    head: Head,
    payload: Vec<u8>,
}

#[derive(Drop)]
pub struct PlainQueue {
    heap: Global,
    list: VecDeque<Plain>,
}

impl PlainQueue {
    pub(crate) fn new(heap: Global) -> PlainQueue {
        PlainQueue {
            heap,
            list: VecDeque::new(heap),
        }
    }

    // How many bytes the payloads have, in all.
    fn used(&self) -> usize {
        self.list.iter().fold(
            0,
            |sum: usize, plain| sum.saturating_add(plain.payload.len()),
        )
    }

    // What is to come of one more request.
    pub(crate) fn verdict(&self, size: usize) -> Result<(), Refusal> {
        if self.list.len() == 16 {
            Err(Refusal::Full)
        } else if self.used().saturating_add(size) > 8192 {
            Err(Refusal::Room)
        } else {
            Ok(())
        }
    }

    pub(crate) fn push(&mut self, head: Head, payload: &[u8]) -> Result<(), AllocError> {
        let payload = payload.to_vec(self.heap)?;
        self.list.push_back(Plain { head, payload })?;
        Ok(())
    }

    pub(crate) fn pop(&mut self) {
        let _ = self.list.pop_front();
    }

    pub(crate) fn hand(&mut self, i: usize) {
        if let Some(plain) = self.list.get_mut(i) {
            plain.head.handed = true;
        }
    }

    pub(crate) fn unhand_all(&mut self) {
        for plain in self.list.iter_mut() {
            plain.head.handed = false;
        }
    }

    // Whether a queue keeps the same, as far as its calls tell.
    pub(crate) fn matches(&self, rt: &impl Abort, q: &Queue) -> Result<(), Fail> {
        for (i, plain) in self.list.iter().enumerate() {
            assert_eq!(rt; q.request(i), Some(plain.head));
            assert_eq!(rt; q.payload(i), Some(plain.payload.as_slice()));
        }
        let unhanded = self.list.iter().filter(|plain| !plain.head.handed);
        let first = self.list.iter().position(|plain| !plain.head.handed);
        let told = (q.len(), q.used(), q.unhanded(), q.first_unhanded());
        let is = (self.list.len(), self.used(), unhanded.count(), first);
        assert_eq!(rt; told, is);
        Ok(())
    }
}
