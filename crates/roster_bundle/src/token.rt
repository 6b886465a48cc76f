//! Tokens of a text.

ghost use Rattle.std.specs.Prelude.{◌≡◌};

use std::cmp::min;

/// A token of a text: the bytes from `start` up to `end`, on this line (from 1).
#[derive(Clone, Copy, Debug, PartialEq, Eq)]
pub struct Token {
    pub start: usize,
    pub end: usize,
    pub line: usize,
}

impl Token {
    ghost use Rattle.roster_bundle.specs.Token.{text_of};

    /// The bytes of the token in its source, cut off at the end of the source.
    pub fn text(self, source: &[u8]) -> &[u8]
        ensures { result.now ≡ text_of source.now self }
    {
        let end = min(self.end, source.len());
        let start = min(self.start, end);
        &source[start..end]
    }
}
