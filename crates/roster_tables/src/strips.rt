//! Strips of labels, set and lowered one after another. The cells between two strips are neither read nor
//! written.

ghost use Rattle.std.specs.Prelude.{◌≡◌, ◌≤◌, length, min, slice_index_or};
ghost use Rattle.roster_lanes.specs.Lanes.{pointer_by, raised};
ghost use Rattle.roster_offers.specs.Lists.{no_row};
ghost use Rattle.roster_tables.specs.OpenDays.{KeepLengths, most_places};
ghost use Rattle.roster_tables.specs.Strips.{AreStripsIn, BetweenStripsKept, StripCells};

use crate::labels::NO_ROW;
use roster_lanes::{lower_all, set_all};

/// Strips of cells in a list: how many there are, how wide each is, and the stride from the beginning of one
/// to the next.
#[derive(Clone, Copy)]
pub(crate) struct StripShape {
    pub(crate) strips: usize,
    pub(crate) width: usize,
    pub(crate) stride: usize,
}

/// Sets the labels of the strips to the other ones plus `more`, and their numbers to `number`.
#[inline(always)]
pub(crate) fn set_strips(
    shape: StripShape,
    labels: &mut [u32],
    numbers: &mut [u8],
    others: &[u32],
    more: u32,
    number: u8,
)
    requires strips { AreStripsIn shape (length labels.old) }
    requires short { length labels.old ≤ most_places }
    requires numbers { length numbers.old ≡ length labels.old }
    requires others { length others.now ≡ length labels.old }
    ensures labels { StripCells shape (λ j label. label ≡ min (raised others.now more j) no_row)
        labels.new }
    ensures numbers { StripCells shape (λ j x. x ≡ number) numbers.new }
    ensures between { BetweenStripsKept shape labels.old labels.new }
    ensures lengths { KeepLengths labels.old labels.new numbers.old numbers.new }
{
    let StripShape {
        strips,
        width,
        stride,
    } = shape;
    // One strip alone, and strips that touch, are consecutive cells.
    if strips == 1 || width == stride {
        set_all(labels, others, more, NO_ROW);
        numbers.fill(number);
        return;
    }
    set_apart(shape, labels, numbers, others, more, number);
}

/// The same, one strip after another.
#[inline(never)]
fn set_apart(
    shape: StripShape,
    labels: &mut [u32],
    numbers: &mut [u8],
    others: &[u32],
    more: u32,
    number: u8,
)
    requires strips { AreStripsIn shape (length labels.old) }
    requires short { length labels.old ≤ most_places }
    requires numbers { length numbers.old ≡ length labels.old }
    requires others { length others.now ≡ length labels.old }
    ensures labels { StripCells shape (λ j label. label ≡ min (raised others.now more j) no_row)
        labels.new }
    ensures numbers { StripCells shape (λ j x. x ≡ number) numbers.new }
    ensures between { BetweenStripsKept shape labels.old labels.new }
    ensures lengths { KeepLengths labels.old labels.new numbers.old numbers.new }
{
    'strips: for strip in 0..shape.strips {
        let at = strip * shape.stride;
        let end = at + shape.width;
        set_all(&mut labels[at..end], &others[at..end], more, NO_ROW);
        numbers[at..end].fill(number);
    }
}

/// Lowers the labels of the strips to the other ones plus `more`, and sets the numbers of those that become
/// smaller.
#[inline(always)]
pub(crate) fn lower_strips(
    shape: StripShape,
    labels: &mut [u32],
    numbers: &mut [u8],
    others: &[u32],
    more: u32,
    number: u8,
)
    requires strips { AreStripsIn shape (length labels.old) }
    requires short { length labels.old ≤ most_places }
    requires numbers { length numbers.old ≡ length labels.old }
    requires others { length others.now ≡ length labels.old }
    ensures labels { StripCells shape (λ j label. label ≡ min (slice_index_or labels.old j 0)
        (raised others.now more j)) labels.new }
    ensures numbers { StripCells shape (λ j x. x ≡ pointer_by (slice_index_or labels.old j 0)
        (raised others.now more j) (slice_index_or numbers.old j 0) number) numbers.new }
    ensures between { BetweenStripsKept shape labels.old labels.new }
    ensures lengths { KeepLengths labels.old labels.new numbers.old numbers.new }
{
    if shape.strips == 1 || shape.width == shape.stride {
        lower_all(labels, numbers, others, more, number);
        return;
    }
    lower_apart(shape, labels, numbers, others, more, number);
}

/// The same, one strip after another.
#[inline(never)]
fn lower_apart(
    shape: StripShape,
    labels: &mut [u32],
    numbers: &mut [u8],
    others: &[u32],
    more: u32,
    number: u8,
)
    requires strips { AreStripsIn shape (length labels.old) }
    requires short { length labels.old ≤ most_places }
    requires numbers { length numbers.old ≡ length labels.old }
    requires others { length others.now ≡ length labels.old }
    ensures labels { StripCells shape (λ j label. label ≡ min (slice_index_or labels.old j 0)
        (raised others.now more j)) labels.new }
    ensures numbers { StripCells shape (λ j x. x ≡ pointer_by (slice_index_or labels.old j 0)
        (raised others.now more j) (slice_index_or numbers.old j 0) number) numbers.new }
    ensures between { BetweenStripsKept shape labels.old labels.new }
    ensures lengths { KeepLengths labels.old labels.new numbers.old numbers.new }
{
    'strips: for strip in 0..shape.strips {
        let at = strip * shape.stride;
        let end = at + shape.width;
        let strip_labels = &mut labels[at..end];
        lower_all(
            strip_labels,
            &mut numbers[at..end],
            &others[at..end],
            more,
            number,
        );
    }
}

/// Sets the labels of the strips to that of no row, and their numbers to 0.
pub(crate) fn clear_strips(shape: StripShape, labels: &mut [u32], numbers: &mut [u8])
    requires strips { AreStripsIn shape (length labels.old) }
    requires short { length labels.old ≤ most_places }
    requires numbers { length numbers.old ≡ length labels.old }
    ensures labels { StripCells shape (λ j label. label ≡ no_row) labels.new }
    ensures numbers { StripCells shape (λ j x. x ≡ 0) numbers.new }
    ensures between { BetweenStripsKept shape labels.old labels.new }
    ensures lengths { KeepLengths labels.old labels.new numbers.old numbers.new }
{
    'strips: for strip in 0..shape.strips {
        let at = strip * shape.stride;
        let end = at + shape.width;
        labels[at..end].fill(NO_ROW);
        numbers[at..end].fill(0);
    }
}
