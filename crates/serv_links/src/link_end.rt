//! How a link ended.

/// How a link ended, with the number of responses that were written whole. A 500 or a 503 is not counted.
#[derive(Clone, Copy, Debug, PartialEq, Eq)]
pub enum LinkEnd {
    /// The peer's stream ended, or a response that ends the connection was written.
    Ended(u32),
    /// A read or a write failed.
    Broken(u32),
    /// 16,777,216 bytes were taken, and no more are.
    Cut(u32),
    /// The disk failed; a 500 was written or tried.
    Disk(u32),
    /// No memory was there; a 503 was written or tried.
    NoMemory(u32),
}
