//! Strips of labels of each length, lowered by vectors and by a plain loop.

ghost use Rattle.std.specs.Prelude.{◌≡◌, ◌+◌, ◌<◌, ◌≤◌, ℕ, length, slice_index_or};

use roster_lanes::{lower_all, lower16};

/// The greatest length: four vectors, and six labels that don't fill one.
const MOST_LABELS: usize = 70;

/// Sets each label to one of five, in turn.
fn fill_labels(labels: &mut [u32], from: usize) {
    for i in 0..labels.len() {
        labels[i] = match i.wrapping_add(from) % 5 {
            0 => 0,
            1 => 1000,
            2 => 2_147_483_648,
            3 => 999,
            _ => u32::MAX,
        };
    }
}

/// Sets each candidate to one of seven, in turn. With 1000 more they are smaller than, equal to or larger
/// than labels.
fn fill_others(others: &mut [u32], from: usize)
    ensures { (i : ℕ) → i < length others.old → slice_index_or others.new i 0 + 1000 ≤ 4294967295 }
{
    'places: for i in 0..others.len() {
        others[i] = match i.wrapping_add(from) % 7 {
            0 => 0,
            1 => 4_294_966_295,
            2 => 1000,
            3 => 2_147_482_648,
            4 => 2_147_482_647,
            5 => 999,
            _ => 4_294_966_294,
        };
    }
}

/// The same as `lower_all`, one label after the other.
fn lower_each(labels: &mut [u32], pointers: &mut [u8], others: &[u32], more: u32, pointer: u8)
    requires pointers { length pointers.old ≡ length labels.old }
    requires others { length others.now ≡ length labels.old }
    requires within { (i : ℕ) → i < length labels.old →
        slice_index_or others.now i 0 + more ≤ 4294967295 }
{
    for i in 0..labels.len() {
        let candidate = others[i] + more;
        if candidate < labels[i] {
            labels[i] = candidate;
            pointers[i] = pointer;
        }
    }
}

/// Whether the first `count` labels of 70, lowered three times, become the same both ways, and those after
/// them stay.
fn agrees(count: usize, from: usize) -> bool
    requires { count ≤ 70 }
{
    let (mut labels, mut pointers) = ([0; MOST_LABELS], [200; MOST_LABELS]);
    fill_labels(&mut labels, from);
    let (mut by_each, mut by_each_pointers) = (labels, pointers);
    let mut others = [0; MOST_LABELS];
    for pointer in 1..4_u8 {
        let more = if pointer == 2 { 0 } else { 1000 };
        fill_others(&mut others, from.wrapping_add(pointer as usize));
        let others = &others[..count];
        lower_all(
            &mut labels[..count],
            &mut pointers[..count],
            others,
            more,
            pointer,
        );
        lower_each(
            &mut by_each[..count],
            &mut by_each_pointers[..count],
            others,
            more,
            pointer,
        );
    }
    labels == by_each && pointers == by_each_pointers
}

#[test]
fn lengths_up_to_seventy(rt: HostRuntime) {
    for count in 0..=MOST_LABELS {
        for from in 0..7 {
            assert!(rt; agrees(count, from), "{count} places");
        }
    }
}

#[test]
fn bits_of_sixteen_labels(rt: HostRuntime) {
    let mut labels = [
        5,
        5,
        5,
        0,
        0,
        u32::MAX,
        u32::MAX,
        7,
        7,
        7,
        7,
        7,
        7,
        7,
        2_147_483_648,
        9,
    ];
    let others = [
        4,
        5,
        6,
        0,
        1,
        u32::MAX,
        0,
        7,
        7,
        7,
        7,
        7,
        7,
        7,
        2_147_483_647,
        8,
    ];
    assert!(rt; lower16(&mut labels, &others) == 0b1100_0000_0100_0001);
    assert!(rt;
        labels
            == [
                4,
                5,
                5,
                0,
                0,
                u32::MAX,
                0,
                7,
                7,
                7,
                7,
                7,
                7,
                7,
                2_147_483_647,
                8
            ]
    );
    assert!(rt; lower16(&mut labels, &others) == 0);
}
