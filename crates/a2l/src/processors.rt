//! How many processors a run finds free. No promise rests on it.

use std::fs::File;
use std::io::Read;
use std::rt::Files;

/// The front of a file that the system makes when it is read; none where it can't be read.
fn front<'b, R: Files>(rt: &R, path: &str, buffer: &'b mut [u8]) -> Option<&'b str> {
    let count = File::open(rt, path).ok()?.read(buffer).ok()?;
    str::from_utf8(buffer.get(..count)?).ok()
}

/// How many processors a machine has, by a list of their numbers such as `0-3`.
fn listed(list: &str) -> Option<usize> {
    let last = list.trim().rsplit(['-', ',']).next()?;
    last.parse::<usize>().ok()?.checked_add(1)
}

/// How many threads want to run besides the one that asks, by a line such as
/// `0.20 0.18 0.12 3/104 11206`, whose fourth word counts both.
fn others(loads: &str) -> Option<usize> {
    let (wanting, _) = loads.split(' ').nth(3)?.split_once('/')?;
    wanting.parse::<usize>().ok()?.checked_sub(1)
}

/// How many processors of the machine no other thread wants; none where the system doesn't say.
pub fn free_processors<R: Files>(rt: &R) -> Option<usize> {
    let mut buffer = [0u8; 64];
    let processors = listed(front(rt, "/sys/devices/system/cpu/online", &mut buffer)?)?;
    let others = others(front(rt, "/proc/loadavg", &mut buffer)?)?;
    Some(processors.saturating_sub(others))
}
