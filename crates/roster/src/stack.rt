//! The limit of the stack, which the system gives in a table of limits.

use std::fs;
use std::io::Read;
use std::rt::Files;

/// How many bytes of stack a run may need, and the line that says so.
const LEAST: u64 = 2_097_152;

pub(crate) const IS_SMALL: &str = "the stack is limited to less than 2048 kB\n";

/// The file in which Linux says what limits this process has, a line for each: its name, the limit, and more.
const LIMITS: &str = "/proc/self/limits";

/// What the line of the stack begins with. Its limit is in bytes, or `unlimited`.
const NAME: &str = "Max stack size";

/// How much of the table is read, in bytes. All of it has some 1,300.
const AT_ONCE: usize = 4_096;

/// Whether the stack is limited to less than a run may need. If the system doesn't say, it isn't.
pub(crate) fn is_small<R: Files>(rt: &R) -> bool {
    let mut table = [0; AT_ONCE];
    let Ok(mut file) = fs::open(rt, LIMITS) else {
        return false;
    };
    match file.read(&mut table) {
        Ok(length) => limit_in(&table[..length]).is_some_and(|limit| limit < LEAST),
        Err(_) => false,
    }
}

/// The limit of the stack in a table of limits, if there is one.
fn limit_in(table: &[u8]) -> Option<u64> {
    let text = str::from_utf8(table).ok()?;
    let line = text.lines().find_map(|line| line.strip_prefix(NAME))?;
    line.split_whitespace().next()?.parse().ok()
}
