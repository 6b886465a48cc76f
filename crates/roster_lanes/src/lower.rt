//! Lowering labels by vectors.

ghost use Rattle.std.specs.Prelude.{◌≡◌, ℕ, ◌+◌, ◌<◌, ◌≤◌, length, min, nat_lt, slice_index_or, if◌then◌else◌, ◌==◌};
ghost use Rattle.std.specs.Int.{bit_at};
ghost use Rattle.roster_lanes.specs.Lanes.{LabelsLowered, LabelsSet, PointersSet, SameOutside, pointer_by, raised};

use std::simd::prelude::*;

/// The number of labels in one vector.
pub const LANES: usize = 16;

/// Each label becomes the smaller of the two. Bit i of the result is set exactly if the second was strictly
/// smaller at index i.
#[inline(always)]
pub fn lower16(labels: &mut [u32; LANES], others: &[u32; LANES]) -> u16
    ensures labels { (i : ℕ) → i < LANES → slice_index_or labels.new i 0 ≡ min
        (slice_index_or labels.old i 0) (slice_index_or others.now i 0) }
    ensures bits { (i : ℕ) → i < LANES → bit_at result
        i ≡ (if nat_lt (slice_index_or others.now i 0) (slice_index_or labels.old i 0) then 1 else
        0) }
{
    let old = u32x16::from_slice(&labels[..]);
    let least = old.simd_min(u32x16::from_slice(&others[..]));
    least.copy_to_slice(&mut labels[..]);
    least.simd_ne(old).to_bitmask() as u16
}

/// Lowers each label to the other one at its index plus `more`, if that is strictly smaller, and sets the
/// label's pointer there. All other pointers stay. Bits above the 32nd are cut off.
pub fn lower_all(labels: &mut [u32], pointers: &mut [u8], others: &[u32], more: u32, pointer: u8)
    requires pointers { length pointers.old ≡ length labels.old }
    requires others { length others.now ≡ length labels.old }
    ensures labels { (i : ℕ) → i < length labels.old →
        slice_index_or labels.new i 0 ≡ min (slice_index_or labels.old i 0)
        (raised others.now more i) }
    ensures pointers { (i : ℕ) → i < length labels.old →
        slice_index_or pointers.new i 0 ≡ pointer_by (slice_index_or labels.old i 0)
        (raised others.now more i) (slice_index_or pointers.old i 0) pointer }
    ensures lengths { (length labels.new ≡ length labels.old)
        × (length pointers.new ≡ length pointers.old) }
{
    let count = labels.len();
    if count < LANES {
        lower_few(labels, pointers, others, more, pointer);
        return;
    }
    'vectors: for vector in 0..count / LANES {
        lower_at(labels, pointers, others, vector * LANES, more, pointer);
    }
    // The labels after the last whole vector, with some once more: what is lowered twice stays as it was.
    if count % LANES != 0 {
        lower_at(labels, pointers, others, count - LANES, more, pointer);
    }
}

/// The same, one label after the other.
fn lower_few(labels: &mut [u32], pointers: &mut [u8], others: &[u32], more: u32, pointer: u8)
    requires pointers { length pointers.old ≡ length labels.old }
    requires others { length others.now ≡ length labels.old }
    ensures labels { LabelsLowered 0 (length labels.old) others.now more labels.old labels.new }
    ensures pointers { PointersSet 0 (length labels.old) others.now more pointer labels.old
        pointers.old pointers.new }
{
    'lanes: for i in 0..labels.len() {
        let (label, candidate) = (labels[i], others[i].wrapping_add(more));
        // Read in any case, so that no branch is needed.
        let old = pointers[i];
        pointers[i] = if candidate < label { pointer } else { old };
        labels[i] = label.min(candidate);
    }
}

/// The same for `LANES` labels from a first one on.
#[inline(always)]
fn lower_at(
    labels: &mut [u32],
    pointers: &mut [u8],
    others: &[u32],
    first: usize,
    more: u32,
    pointer: u8,
)
    requires labels { first + LANES ≤ length labels.old }
    requires pointers { first + LANES ≤ length pointers.old }
    requires others { first + LANES ≤ length others.now }
    ensures labels { LabelsLowered first (first + LANES) others.now more labels.old labels.new }
    ensures pointers { PointersSet first (first + LANES) others.now more pointer labels.old
        pointers.old pointers.new }
    ensures labels_others { SameOutside first (first + LANES) labels.old labels.new }
    ensures pointers_others { SameOutside first (first + LANES) pointers.old pointers.new }
{
    let old = load(labels, first);
    let candidates = raised_at(others, first, more);
    if lower_labels(&mut labels[first..first + LANES], &candidates) != 0 {
        set_pointers(
            &mut pointers[first..first + LANES],
            &old,
            &labels[first..first + LANES],
            pointer,
        );
    }
}

/// Sets each label to the other one at its index plus `more`, or to `most` if that is smaller. Bits above the
/// 32nd are cut off before.
pub fn set_all(labels: &mut [u32], others: &[u32], more: u32, most: u32)
    requires { length others.now ≡ length labels.old }
    ensures labels { (i : ℕ) → i < length labels.old →
        slice_index_or labels.new i 0 ≡ min (raised others.now more i) most }
    ensures length { length labels.new ≡ length labels.old }
{
    let count = labels.len();
    if count < LANES {
        set_few(labels, others, more, most);
        return;
    }
    'vectors: for vector in 0..count / LANES {
        set_at(labels, others, vector * LANES, more, most);
    }
    // The labels after the last whole vector, with some once more: setting them twice changes nothing.
    if count % LANES > 0 {
        set_at(labels, others, count - LANES, more, most);
    }
}

/// The same, one label after the other.
fn set_few(labels: &mut [u32], others: &[u32], more: u32, most: u32)
    requires { length others.now ≡ length labels.old }
    ensures labels { LabelsSet 0 (length labels.old) others.now more most labels.new }
{
    'lanes: for i in 0..labels.len() {
        labels[i] = others[i].wrapping_add(more).min(most);
    }
}

/// The same for `LANES` labels from a first one on.
#[inline(always)]
fn set_at(labels: &mut [u32], others: &[u32], first: usize, more: u32, most: u32)
    requires labels { first + LANES ≤ length labels.old }
    requires others { first + LANES ≤ length others.now }
    ensures labels { LabelsSet first (first + LANES) others.now more most labels.new }
    ensures labels_others { SameOutside first (first + LANES) labels.old labels.new }
{
    let mut candidates = raised_at(others, first, more);
    lower16(&mut candidates, &[most; LANES]);
    store(&mut labels[first..first + LANES], &candidates);
}

/// Sets `LANES` numbers.
#[inline(always)]
fn store(numbers: &mut [u32], new: &[u32; LANES])
    requires { length numbers.old ≡ LANES }
    ensures { (i : ℕ) → i < LANES → slice_index_or numbers.new i 0 ≡ slice_index_or new.now i 0 }
{
    numbers.copy_from_slice(&new[..]);
}

/// The `LANES` numbers from an index on.
#[inline(always)]
fn load(numbers: &[u32], first: usize) -> [u32; LANES]
    requires { first + LANES ≤ length numbers.now }
    ensures { (i : ℕ) → i < LANES → slice_index_or result i 0 ≡ slice_index_or numbers.now
        (first + i) 0 }
{
    u32x16::from_slice(&numbers[first..]).to_array()
}

/// The `LANES` numbers from an index on, each plus `more`.
#[inline(always)]
fn raised_at(others: &[u32], first: usize, more: u32) -> [u32; LANES]
    requires others { first + LANES ≤ length others.now }
    ensures { (i : ℕ) → i < LANES → slice_index_or result i 0 ≡ raised others.now more (first + i) }
{
    (u32x16::from_slice(&others[first..]) + u32x16::splat(more)).to_array()
}

/// Lowers `LANES` labels. The result is 0 if none becomes smaller.
#[inline(always)]
fn lower_labels(labels: &mut [u32], candidates: &[u32; LANES]) -> u16
    requires { length labels.old ≡ LANES }
    ensures labels { (i : ℕ) → i < LANES → slice_index_or labels.new i 0 ≡ min
        (slice_index_or labels.old i 0) (slice_index_or candidates.now i 0) }
    ensures bits { (i : ℕ) → i < LANES → bit_at result
        i ≡ (if nat_lt (slice_index_or candidates.now i 0) (slice_index_or labels.old i 0) then 1
        else 0) }
{
    let Some(lanes) = labels.as_mut_array() else {
        unreachable!()
    };
    lower16(lanes, candidates)
}

/// Sets the pointers of those of `LANES` labels that aren't the old ones.
#[inline(always)]
fn set_pointers(pointers: &mut [u8], old: &[u32; LANES], labels: &[u32], pointer: u8)
    requires pointers { length pointers.old ≡ LANES }
    requires labels { length labels.now ≡ LANES }
    ensures { (i : ℕ) → i < LANES → slice_index_or pointers.new i
        0 ≡ (if slice_index_or labels.now i 0 == slice_index_or old.now i 0 then slice_index_or
        pointers.old i 0 else pointer) }
{
    let stays = u32x16::from_slice(labels).simd_eq(u32x16::from_slice(&old[..]));
    stays
        .cast::<i8>()
        .select(u8x16::from_slice(pointers), u8x16::splat(pointer))
        .copy_to_slice(pointers);
}
