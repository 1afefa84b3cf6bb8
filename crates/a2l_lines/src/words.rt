//! The words of the command line of a process.

use std::alloc::AllocError;
use std::env;
use std::io::ErrorKind;

/// The words of the command line, without the program's own name. `None` where one of them is no
/// text; the error says that an allocation was refused.
pub fn process_words(rt: &HostRuntime) -> Result<Option<Vec<String>>, AllocError> {
    let words = match env::args(rt) {
        Ok(words) => words,
        Err(error) if error.kind() == ErrorKind::OutOfMemory => return Err(AllocError),
        Err(_) => return Ok(None),
    };
    match words.skip(1).collect(rt.alloc()) {
        Ok(words) => Ok(Some(words)),
        Err(_) => Err(AllocError),
    }
}
