//! Spans: strips of several blocks, which a search extends at once.

ghost use Rattle.std.specs.Prelude.{◌≡◌, ◌+◌, ◌<◌, ◌≤◌, ◌⊎◌, true, is_some};
ghost use Rattle.roster_instance.specs.Meaning.{contract_of};
ghost use Rattle.roster_rules.specs.DayLaw.{weekends_more};
ghost use Rattle.roster_instance.specs.Sizes.{cap};
ghost use Rattle.roster_state.specs.Codes.{sizes_of};

use crate::block::Block;
use crate::days::NurseDays;
use roster_rules::weekends_more;

/// A strip of each of several blocks: the places from `begin` up to `end`. After the first block, each has
/// one more worked weekend.
#[derive(Clone, Copy)]
pub struct Span {
    pub block: Block,
    pub strips: u32,
    pub begin: u32,
    pub end: u32,
}

impl NurseDays<'_> {
    /// How many strips of a span, from the first on, a day treats alike: all those that it takes to no worked
    /// weekend above the greatest number, or the first alone.
    #[inline(always)]
    pub fn alike_strips(&self, day: u16, span: &Span) -> u32
        requires { 0 < span.now.strips }
        ensures some { 0 < result }
        ensures within { result ≤ span.now.strips }
        ensures alike { 1 < result → span.now.block.weekends + result
            + weekends_more day (is_some span.now.block.last)
            true ≤ (contract_of self.now.case.now self.now.nurse).weekends + 1 }
        ensures most { result < span.now.strips →
            (contract_of self.now.case.now self.now.nurse).weekends
            < span.now.block.weekends + result
            + weekends_more day (is_some span.now.block.last) true }
    {
        let state = span.block.state;
        let last = state.last;
        let begins = weekends_more(day, last.is_some(), true);
        let before = state.weekends as u32 + begins;
        let left = (self.rules.weekends as u32 + 1).saturating_sub(before);
        span.strips.min(left.max(1))
    }

    /// Up to which place of a span, from the first on, a day treats the places alike: all those below the
    /// greatest total, or those from it on below the cap, or the cap alone.
    #[inline(always)]
    pub fn alike_end(&self, span: &Span) -> u32
        requires places { span.now.begin < span.now.end }
        requires within { span.now.end
            ≤ (sizes_of self.now.case.now self.now.nurse).assignments }
        ensures some { span.now.begin < result }
        ensures within { result ≤ span.now.end }
        ensures places { span.now.begin + 1 < result →
            result ≤ cap (contract_of self.now.case.now self.now.nurse).total }
        ensures level { span.now.begin
            < (contract_of self.now.case.now self.now.nurse).total.greatest →
            result ≤ (contract_of self.now.case.now self.now.nurse).total.greatest }
        ensures most { result < span.now.end →
            (result ≡ (contract_of self.now.case.now self.now.nurse).total.greatest)
            ⊎ (result ≡ cap (contract_of self.now.case.now self.now.nurse).total) }
    {
        let total = self.rules.total;
        let (greatest, cap) = (total.greatest as u32, total.cap() as u32);
        let end = span.end;
        if span.begin < greatest {
            end.min(greatest)
        } else if span.begin < cap {
            end.min(cap)
        } else {
            end
        }
    }
}
