//! The instance mini, and what runs over it write.

use std::alloc::{AllocError, Global};

/// The smallest instance: two nurses, one week, an empty roster.
pub const MINI: &str = "SCENARIO = mini

WEEKS = 1

SKILLS = 1
Nurse

SHIFT_TYPES = 2
Early (1,5)
Night (1,5)

FORBIDDEN_SHIFT_TYPES_SUCCESSIONS
Early 0
Night 1 Early

CONTRACTS = 1
Full (2,5) (1,5) (1,5) 1 1

NURSES = 2
Ann Full 1 Nurse
Bob Full 1 Nurse

HISTORY
0 mini

NURSE_HISTORY
Ann 0 0 None 0 0 1
Bob 0 0 None 0 0 1

WEEK_DATA
mini

REQUIREMENTS
Early Nurse (0,1) (0,1) (0,1) (0,1) (0,1) (0,1) (0,1)

SHIFT_OFF_REQUESTS = 0

SOLUTION
0 mini

ASSIGNMENTS = 0
";

/// What `show` writes for it.
pub const SHOWN: &str = "SOLUTION\n0 mini\n\nASSIGNMENTS = 0\n";

/// The instance mini with other lines in the place of some, each of which occurs in it once.
pub fn changed(alloc: Global, changes: &[(&str, &str)]) -> Result<String, AllocError> {
    let mut text = String::from_str(alloc, MINI)?;
    for (line, other) in changes {
        text = text.replace(alloc, *line, *other)?;
    }
    Ok(text)
}

/// The log of a run over mini.
pub const RUN_LOG: &str =
    "start 470\n1 Ann 180\n1 Bob 20\nround 1 20\n2 Ann 0\nround 2 0\nround 3 0\nsettled 0\n";

/// Whether these are the bytes of a text, or its first `room` bytes if it is longer.
pub fn fill(written: &[u8], text: &str, room: usize) -> bool {
    text.as_bytes().starts_with(written) && written.len() == text.len().min(room)
}
