//! How addresses and spans are answered.

/// How addresses and spans are answered.
#[derive(Debug, Drop)]
pub struct Options<'a> {
    /// `-f`: the function of each frame is written.
    pub functions: bool,
    /// `-i`: all frames are written, and not the innermost alone.
    pub inlines: bool,
    /// `-a`: the address is written before its frames, and a span before its pieces.
    pub addresses: bool,
    /// Threads that answer, 1 to 64.
    pub workers: u8,
    /// Threads that ask, 1 to 64.
    pub senders: u8,
    /// The addresses and spans, as they were written. None: they are read from the input.
    pub words: Vec<&'a str>,
}
