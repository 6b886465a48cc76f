//! The labels and pointers of a day: for each state the cost of the best row from there on, and the offer
//! with which it begins.

ghost use Rattle.std.specs.Prelude.{◌≡◌, ◌+◌, ◌*◌, ◌<◌, ◌≤◌, IfSome, None, true, false, length};
ghost use Rattle.roster_bundle.specs.Limits.{greatest_u64};
ghost use Rattle.roster_instance.specs.Limits.{most_shifts};
ghost use Rattle.roster_state.specs.Boxes.{box_at};
ghost use Rattle.roster_state.specs.Codes.{code_of, fits_sizes, product};
ghost use Rattle.roster_tables.specs.Days.{BlockLabels, EndLabels};
ghost use Rattle.roster_tables.specs.OpenDays.{AllAlike, AreLabelsBy, ArePointersPut, AreRefusedBy, AreHalfBytes, AreTables, HaveLength, HaveCapacity, IsGroupOf, IsLowered, IsPut, IsSpanDay, IsSpanOf, KeepLengths, KeepTables, KeepsRest, NoneYet, StripsAlike, CellsBy, IsReachableBy, IsReachableOn, day_extensions, group_places, group_extensions, most_places, places_of, shape_of, states_of, span_extensions};
ghost use Rattle.roster_tables.specs.Strips.{BetweenStripsKept};
ghost use Rattle.roster_tables.specs.Tables.{IsReachable, IsReachableLike};

use crate::day::OpenDay;
use crate::days::SearchDays;
use crate::pointers::Pointers;
use crate::strips::{StripShape, clear_strips, lower_strips, set_strips};
use roster_instance::ContractRules;
use roster_offers::SearchInput;
use roster_state::{BOXES, Block, Meter, NurseDays, Span, StateBox, WorkedDay, end_cost};

/// The label of a state from which no row goes on. Each row costs less.
pub const NO_ROW: u32 = 1_073_741_824;

/// The labels of the reachable states after the last day: what is missing in the end, in the parts of a point
/// of the search's scale, as all labels.
pub fn label_end(days: &SearchDays<'_>, boxes: &[StateBox; BOXES], labels: &mut [u32])
    requires capacity { product days.now.ranges ≤ length labels.old }
    ensures labels { EndLabels
        (IsReachable days.now.search.case.now days.now.search.nurse boxes.now) days.now labels.new }
    ensures length { length labels.new ≡ length labels.old }
{
    let ranges = &days.ranges;
    let (runs, shift_runs) = (ranges.run(), ranges.shift_run());
    for last in 0..ranges.last() {
        let state_box = box_of(boxes, last);
        let (first_run, end_run) = state_box.run.below(runs);
        for run in first_run..end_run {
            let (first_shift_run, end_shift_run) = state_box.shift_run.below(shift_runs);
            for shift_run in first_shift_run..end_shift_run {
                let group = Block::of_runs(last, run as u16, shift_run as u16);
                label_group_end(days, boxes, group, labels);
            }
        }
    }
}

/// The labels after the last day of those reachable states that differ from one in their weekends and
/// assignments alone.
fn label_group_end(
    days: &SearchDays<'_>,
    boxes: &[StateBox; BOXES],
    group: Block,
    labels: &mut [u32],
)
    requires fits { fits_sizes days.now.ranges group ≡ true }
    requires no_weekends { group.weekends ≡ 0 }
    requires no_assignments { group.assignments ≡ 0 }
    requires capacity { product days.now.ranges ≤ length labels.old }
    ensures labels { EndLabels
        (IsReachableLike days.now.search.case.now days.now.search.nurse boxes.now group) days.now
        labels.new }
    ensures outside { KeepsRest (code_of days.now.ranges group) (group_places days.now) labels.old
        labels.new }
{
    days.search.case.keeps_limits();
    let state_box = box_of(boxes, group.last_number());
    let (first, end) = state_box.weekends.below(days.ranges.weekends());
    for weekends in first..end {
        let block = group.with_weekends(weekends as u16);
        label_block_end(days, block, labels);
    }
}

/// The labels of a block after the last day.
fn label_block_end(days: &SearchDays<'_>, block: Block, labels: &mut [u32])
    requires fits { fits_sizes days.now.ranges block ≡ true }
    requires capacity { product days.now.ranges ≤ length labels.old }
    ensures labels { BlockLabels days.now block days.now.ranges.assignments labels.new }
    ensures outside { KeepsRest (code_of days.now.ranges block) days.now.ranges.assignments
        labels.old labels.new }
{
    let (case, nurse) = (days.search.case, days.search.nurse);
    let scale = days.search.scale;
    let ranges = &days.ranges;
    let code = block.first(ranges) as usize;
    for place in 0..block.places(ranges) as u16 {
        labels[code + place as usize] = scale * end_cost(case, nurse, block.state(place));
    }
}

/// The labels and the pointers of the states that are reachable on a day. For each of these states and each
/// offer the meter counts one.
pub fn label_day(
    day: &OpenDay<'_, '_>,
    labels: &mut [u32],
    pointers: &mut Pointers,
    buffer: &mut SpanBuffer,
    meter: &mut Meter,
)
    requires tables { HaveCapacity day.now labels.old pointers.old }
    requires room { meter.old + day_extensions day.now ≤ greatest_u64 }
    ensures tables { AreTables day.now (IsReachableOn day.now) labels.new pointers.new }
    ensures outside { KeepTables day.now 0 (product day.now.days.ranges) labels.old labels.new
        pointers.old pointers.new }
    ensures exactly { meter.new ≡ meter.old + day_extensions day.now }
{
    let ranges = &day.days.ranges;
    let (runs, shift_runs) = (ranges.run(), ranges.shift_run());
    for last in 0..ranges.last() {
        let state_box = box_of(day.boxes, last);
        let (first_run, end_run) = state_box.run.below(runs);
        for run in first_run..end_run {
            let (first_shift_run, end_shift_run) = state_box.shift_run.below(shift_runs);
            for shift_run in first_shift_run..end_shift_run {
                let group = Block::of_runs(last, run as u16, shift_run as u16);
                label_group(day, group, labels, pointers, buffer, meter);
            }
        }
    }
}

/// The greatest number of places of a block, and of a span with the cells between its strips: `most_places`
/// of the tables.
const MOST_PLACES: usize = 1000;

/// Workspace for the offer indices of a span. What it holds before is never read, so one serves all days.
#[derive(Drop)]
pub struct SpanBuffer {
    numbers: [u8; MOST_PLACES],
}

impl SpanBuffer {
    /// Capacity for any span.
    pub fn new() -> SpanBuffer {
        SpanBuffer {
            numbers: [0; MOST_PLACES],
        }
    }
}

/// The box of a last shift's number, 0 for none.
#[inline(always)]
fn box_of(boxes: &[StateBox; BOXES], last: u32) -> StateBox
    requires { last < 1 + most_shifts }
    ensures { result ≡ box_at boxes.now last }
{
    boxes[last as usize]
}

/// The labels and the pointers of those reachable states of a day that differ from one in their weekends and
/// assignments alone.
fn label_group(
    day: &OpenDay<'_, '_>,
    group: Block,
    labels: &mut [u32],
    pointers: &mut Pointers,
    buffer: &mut SpanBuffer,
    meter: &mut Meter,
)
    requires group { IsGroupOf day.now group }
    requires tables { HaveCapacity day.now labels.old pointers.old }
    requires room { meter.old + group_extensions day.now group ≤ greatest_u64 }
    ensures tables { AreTables day.now (IsReachableBy day.now group) labels.new pointers.new }
    ensures outside { KeepTables day.now (code_of day.now.days.ranges group)
        (group_places day.now.days) labels.old labels.new pointers.old pointers.new }
    ensures exactly { meter.new ≡ meter.old + group_extensions day.now group }
{
    let days = &day.days;
    days.search.case.keeps_limits();
    let own = NurseDays {
        case: days.search.case,
        nurse: days.search.nurse,
        rules: days.rules,
    };
    if !own.can_be(&group) {
        return;
    }
    let stride = days.ranges.assignments();
    let state_box = box_of(day.boxes, group.last_number());
    let (begin, end) = state_box.assignments.below(stride);
    let (first, last) = state_box.weekends.below(days.ranges.weekends());
    if end <= begin {
        return;
    }
    let mut weekends = first;
    while weekends < last {
        let block = group.with_weekends(weekends as u16);
        let left = Span {
            block,
            strips: last - weekends,
            begin,
            end,
        };
        let alike = own.alike_strips(day.day, &left);
        let strips = strips_that_fit(alike, stride);
        let alike = Span { strips, ..left };
        label_strips(day, &alike, labels, pointers, buffer, meter);
        weekends += strips;
    }
}

/// That many strips if they fit into the buffer, together with the cells between them, otherwise one.
fn strips_that_fit(strips: u32, stride: u32) -> u32
    requires some { 0 < strips }
    requires few { (strips ≤ most_places) × (stride ≤ most_places) }
    ensures some { 0 < result }
    ensures within { result ≤ strips }
    ensures places { result * stride ≤ most_places }
{
    if strips * stride <= MOST_PLACES as u32 {
        return strips;
    }
    1
}

/// The labels and the pointers of strips that a day treats alike. It cuts them into spans of as many places
/// as the day treats alike. The cells between the strips stay. For each offer the meter counts the cells of
/// the strips that are set or lowered.
fn label_strips(
    day: &OpenDay<'_, '_>,
    span: &Span,
    labels: &mut [u32],
    pointers: &mut Pointers,
    buffer: &mut SpanBuffer,
    meter: &mut Meter,
)
    requires span { IsSpanOf day.now span.now }
    requires alike { StripsAlike day.now span.now }
    requires tables { HaveCapacity day.now labels.old pointers.old }
    requires room { meter.old + span_extensions day.now span.now ≤ greatest_u64 }
    ensures put { IsPut day.now span.now labels.old labels.new pointers.old pointers.new }
    ensures counted { meter.new ≡ meter.old + span_extensions day.now span.now }
{
    let SearchDays {
        search: SearchInput { case, nurse, .. },
        rules,
        ..
    } = day.days;
    let own = NurseDays { case, nurse, rules };
    let mut begin = span.begin;
    while begin < span.end {
        let left = Span { begin, ..*span };
        let end = own.alike_end(&left);
        let part = Span { end, ..left };
        label_span(day, &part, labels, pointers, &mut buffer.numbers, meter);
        begin = end;
    }
}

/// The labels and the pointers of a span whose states a day treats alike. The cells between its strips stay.
fn label_span(
    day: &OpenDay<'_, '_>,
    span: &Span,
    labels: &mut [u32],
    pointers: &mut Pointers,
    numbers: &mut [u8],
    meter: &mut Meter,
)
    requires span { IsSpanOf day.now span.now }
    requires alike { AllAlike day.now span.now }
    requires tables { HaveCapacity day.now labels.old pointers.old }
    requires numbers_capacity { most_places ≤ length numbers.old }
    requires room { meter.old + span_extensions day.now span.now ≤ greatest_u64 }
    ensures put { IsPut day.now span.now labels.old labels.new pointers.old pointers.new }
    ensures numbers { length numbers.new ≡ length numbers.old }
    ensures counted { meter.new ≡ meter.old + span_extensions day.now span.now }
{
    let ranges = &day.days.ranges;
    let first = span.block.first(ranges);
    let code = first as usize + span.begin as usize;
    let between = (span.strips - 1) * ranges.assignments();
    let count = (between + (span.end - span.begin)) as usize;
    let numbers = &mut numbers[..count];
    label_cells(day, span, &mut labels[code..code + count], numbers, meter);
    put_numbers(day, span, first, numbers, pointers);
}

/// Writes the offer indices of a span to its pointers, given the code of its first block.
#[inline(always)]
fn put_numbers(
    day: &OpenDay<'_, '_>,
    span: &Span,
    first: u32,
    numbers: &[u8],
    pointers: &mut Pointers,
)
    requires span { IsSpanOf day.now span.now }
    requires first { first ≡ code_of day.now.days.ranges span.now.block }
    requires numbers { length numbers.now ≡ places_of day.now span.now }
    requires small { AreHalfBytes day.now span.now numbers.now }
    requires capacity { day.now.first + product day.now.days.ranges ≤ length pointers.old }
    ensures put { ArePointersPut day.now span.now numbers.now pointers.old pointers.new }
{
    let stride = day.days.ranges.assignments();
    let code = first as usize + span.begin as usize;
    // One strip alone, and strips that touch, are consecutive cells.
    if span.strips == 1 || span.end - span.begin == stride {
        pointers.set_cells(day.first as usize + code, numbers);
        return;
    }
    put_apart(day, span, first, numbers, pointers);
}

/// The same, one strip after another.
#[inline(never)]
fn put_apart(
    day: &OpenDay<'_, '_>,
    span: &Span,
    first: u32,
    numbers: &[u8],
    pointers: &mut Pointers,
)
    requires span { IsSpanOf day.now span.now }
    requires first { first ≡ code_of day.now.days.ranges span.now.block }
    requires numbers { length numbers.now ≡ places_of day.now span.now }
    requires small { AreHalfBytes day.now span.now numbers.now }
    requires capacity { day.now.first + product day.now.days.ranges ≤ length pointers.old }
    ensures put { ArePointersPut day.now span.now numbers.now pointers.old pointers.new }
{
    let stride = day.days.ranges.assignments() as usize;
    let width = (span.end - span.begin) as usize;
    let code = first as usize + span.begin as usize;
    'strips: for strip in 0..span.strips as usize {
        let at = strip * stride;
        pointers.set_cells(day.first as usize + code + at, &numbers[at..at + width]);
    }
}

/// A span that is extended by one offer after another: its strips, the nurse's rules, and what a worked day
/// brings to the first state, whatever the shift.
#[derive(Clone, Copy)]
struct SpanDay {
    span: Span,
    shape: StripShape,
    rules: ContractRules,
    worked: WorkedDay,
}

/// By all offers of the day, the labels of a span, and for each of its states the index of the offer with
/// which the best row begins.
#[inline(never)]
fn label_cells(
    day: &OpenDay<'_, '_>,
    span: &Span,
    labels: &mut [u32],
    numbers: &mut [u8],
    meter: &mut Meter,
)
    requires span { IsSpanOf day.now span.now }
    requires alike { AllAlike day.now span.now }
    requires lengths { HaveLength day.now span.now labels.old numbers.old }
    requires room { meter.old + span_extensions day.now span.now ≤ greatest_u64 }
    ensures least { CellsBy day.now span.now day.now.offers.now labels.new numbers.new }
    ensures small { AreHalfBytes day.now span.now numbers.new }
    ensures between { BetweenStripsKept (shape_of day.now span.now) labels.old labels.new }
    ensures lengths { KeepLengths labels.old labels.new numbers.old numbers.new }
    ensures counted { meter.new ≡ meter.old + span_extensions day.now span.now }
{
    let SearchDays {
        search: SearchInput { case, nurse, .. },
        rules,
        ..
    } = day.days;
    let days = NurseDays { case, nurse, rules };
    let here = SpanDay {
        span: *span,
        shape: strip_shape(day, span),
        rules,
        worked: days.worked_span(day.day, span),
    };
    let mut is_set = false;
    for place in 0..day.offers.len() {
        if is_set {
            lower_cells(day, &here, place, labels, numbers, meter);
        } else {
            is_set = set_cells(day, &here, place, labels, numbers, meter);
        }
    }
    if !is_set {
        clear_strips(here.shape, labels, numbers);
    }
}

/// The strips of a span.
#[inline(always)]
fn strip_shape(day: &OpenDay<'_, '_>, span: &Span) -> StripShape
    requires { span.now.begin < span.now.end }
    ensures { result ≡ shape_of day.now span.now }
{
    StripShape {
        strips: span.strips as usize,
        width: (span.end - span.begin) as usize,
        stride: day.days.ranges.assignments() as usize,
    }
}

/// Where an offer leads from a span: the index of the label of the state after its first one, and by how much
/// the labels there are raised. None if the offer isn't allowed. The meter counts one for each state.
#[inline(always)]
fn labels_by(
    day: &OpenDay<'_, '_>,
    here: &SpanDay,
    place: usize,
    meter: &mut Meter,
) -> Option<(usize, u32)>
    requires here { IsSpanDay day.now here.now }
    requires place { place < length day.now.offers.now }
    requires room { meter.old + states_of here.now.span ≤ greatest_u64 }
    ensures by { IfSome result (λ r. AreLabelsBy day.now here.now.span place r.0 r.1) }
    ensures none { result ≡ None → AreRefusedBy day.now here.now.span place }
    ensures counted { meter.new ≡ meter.old + states_of here.now.span }
{
    let offer = day.offers[place];
    let shift = offer.choice.shift();
    let days = NurseDays {
        case: day.days.search.case,
        nurse: day.days.search.nurse,
        rules: here.rules,
    };
    let (span, worked) = (&here.span, &here.worked);
    let Some(transition) = days.extend_span(day.day, span, worked, shift, meter) else {
        return None;
    };
    let first = transition.0.code(&day.days.ranges) as usize;
    Some((first, offer.price + day.days.search.scale * transition.1))
}

/// Sets the labels of a span to those by an offer, and its numbers to the offer's index, if the offer is
/// allowed there. No offer before it was. The result is whether it is allowed.
fn set_cells(
    day: &OpenDay<'_, '_>,
    here: &SpanDay,
    place: usize,
    labels: &mut [u32],
    numbers: &mut [u8],
    meter: &mut Meter,
) -> bool
    requires here { IsSpanDay day.now here.now }
    requires place { place < length day.now.offers.now }
    requires lengths { HaveLength day.now here.now.span labels.old numbers.old }
    requires none { NoneYet day.now here.now.span place (length labels.old) }
    requires room { meter.old + states_of here.now.span ≤ greatest_u64 }
    ensures least { result ≡ true →
        IsLowered day.now here.now.span (place + 1) labels.new numbers.new }
    ensures none { result ≡ false →
        NoneYet day.now here.now.span (place + 1) (length labels.new) }
    ensures between { BetweenStripsKept here.now.shape labels.old labels.new }
    ensures lengths { KeepLengths labels.old labels.new numbers.old numbers.new }
    ensures counted { meter.new ≡ meter.old + states_of here.now.span }
{
    let Some(by) = labels_by(day, here, place, meter) else {
        return false;
    };
    let others = &day.later[by.0..by.0 + labels.len()];
    set_strips(here.shape, labels, numbers, others, by.1, place as u8);
    true
}

/// Lowers the labels of a span to those by one more offer, and sets the numbers of those that are lowered: of
/// equally good offers the first stays.
fn lower_cells(
    day: &OpenDay<'_, '_>,
    here: &SpanDay,
    place: usize,
    labels: &mut [u32],
    numbers: &mut [u8],
    meter: &mut Meter,
)
    requires here { IsSpanDay day.now here.now }
    requires place { place < length day.now.offers.now }
    requires lengths { HaveLength day.now here.now.span labels.old numbers.old }
    requires least { IsLowered day.now here.now.span place labels.old numbers.old }
    requires room { meter.old + states_of here.now.span ≤ greatest_u64 }
    ensures least { IsLowered day.now here.now.span (place + 1) labels.new numbers.new }
    ensures between { BetweenStripsKept here.now.shape labels.old labels.new }
    ensures lengths { KeepLengths labels.old labels.new numbers.old numbers.new }
    ensures counted { meter.new ≡ meter.old + states_of here.now.span }
{
    if let Some(by) = labels_by(day, here, place, meter) {
        let others = &day.later[by.0..by.0 + labels.len()];
        lower_strips(here.shape, labels, numbers, others, by.1, place as u8);
    }
}
