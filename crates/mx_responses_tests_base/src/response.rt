//! A response, and its result.

use mx_types::{Code, Method};
use std::alloc::{AllocError, Global};

/// A response, and its result.
#[derive(Clone, Copy)]
pub struct Response {
    /// What it is about.
    pub name: &'static str,
    /// That of its request.
    pub method: Method,
    /// Its bytes are these,
    pub front: &'static [u8],
    /// these,
    pub unit: &'static [u8],
    /// so often,
    pub count: usize,
    /// and these.
    pub end: &'static [u8],
    /// How many of them decide; nothing where the end of the input does.
    pub decided: Option<usize>,
    /// Its result: a whole response, or why it is none.
    pub code: Code,
    /// That of the final head; 0 where there is none.
    pub status: u16,
    /// Where the parts of its body begin and end.
    pub parts: &'static [(u32, u32)],
    /// Its body.
    pub body: &'static [u8],
    /// Whether its connection may serve another request.
    pub keep: bool,
}

impl Response {
    /// All of its bytes.
    pub fn bytes(&self, alloc: Global) -> Result<Vec<u8>, AllocError> {
        let mut bytes = Vec::from_slice(alloc, self.front)?;
        for _ in 0..self.count {
            bytes.extend_from_slice(self.unit)?;
        }
        bytes.extend_from_slice(self.end)?;
        Ok(bytes)
    }
}
