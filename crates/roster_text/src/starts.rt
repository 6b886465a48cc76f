//! The number of tokens of a text, which is counted before memory for them is taken.

ghost use Rattle.std.specs.Prelude.{◌≡◌, ◌+◌, ◌-◌, ◌<◌, ◌≤◌, length};
ghost use Rattle.roster_bundle.specs.Token.{begins_at, is_mark, is_separator, tokens_of};
ghost use Rattle.roster_text.specs.Starts.{lanes_where, starts_in};

use crate::token::{is_mark, is_word_byte};
use std::simd::prelude::*;

/// The number of positions in one vector.
const LANES: usize = 64;

/// The number of tokens of a text: those that begin at its first byte, in the whole vectors after it, and in
/// the rest.
pub(crate) fn token_count(text: &[u8]) -> usize
    ensures { result ≡ length (tokens_of text.now) }
{
    let first = text.len().min(1);
    let vectors = (text.len() - first) / LANES;
    let mut count = starts_between(text, 0, first);
    for vector in 0..vectors {
        count += starts_at(text, first + vector * LANES);
    }
    count + starts_between(text, first + vectors * LANES, text.len())
}

/// The number of tokens that begin from one position up to another, counted one by one.
fn starts_between(text: &[u8], from: usize, to: usize) -> usize
    requires order { from ≤ to }
    requires within { to ≤ length text.now }
    ensures { result ≡ starts_in text.now from (to - from) }
{
    let mut count = 0;
    for at in from..to {
        if begins_at(text, at) {
            count += 1;
        }
    }
    count
}

/// Whether a token begins at a position.
#[tactic(auto, unfolding(roster_bundle::specs::Token::begins_at, roster_bundle::specs::Token::follows_word_byte))]
fn begins_at(text: &[u8], at: usize) -> bool
    requires { at < length text.now }
    ensures { result ≡ begins_at text.now at }
{
    is_mark(text[at]) || (is_word_byte(text[at]) && !(at > 0 && is_word_byte(text[at - 1])))
}

/// The number of tokens that begin in one vector with a byte before it: a mark begins one, and so does a word
/// byte that follows no word byte.
#[inline(always)]
fn starts_at(text: &[u8], at: usize) -> usize
    requires after_first { 0 < at }
    requires within { at + LANES ≤ length text.now }
    ensures { result ≡ starts_in text.now at LANES }
{
    let bytes = u8x64::from_slice(&text[at..]);
    let before = u8x64::from_slice(&text[at - 1..]);
    let follows_none = separators(before) | marks(before);
    let begins = marks(bytes) | (follows_none & !separators(bytes));
    begins.simd_eq(u8x64::splat(255)).to_bitmask().count_ones() as usize
}

/// The lanes that are marks.
#[inline(always)]
fn marks(bytes: u8x64) -> u8x64
    ensures { result ≡ lanes_where is_mark bytes }
{
    // `(` and `)` differ in this bit alone.
    let paired = bytes | u8x64::splat(1);
    let marks = paired.simd_eq(u8x64::splat(b')'))
        | bytes.simd_eq(u8x64::splat(b','))
        | bytes.simd_eq(u8x64::splat(b'='));
    marks.select(u8x64::splat(255), u8x64::splat(0))
}

/// The lanes that are separators.
#[inline(always)]
fn separators(bytes: u8x64) -> u8x64
    ensures { result ≡ lanes_where is_separator bytes }
{
    // A tab and a CR differ in this bit alone.
    let paired = bytes | u8x64::splat(4);
    let separators = paired.simd_eq(u8x64::splat(b'\r'))
        | bytes.simd_eq(u8x64::splat(b' '))
        | bytes.simd_eq(u8x64::splat(b'\n'));
    separators.select(u8x64::splat(255), u8x64::splat(0))
}
