//! The best row is found from state to state. The functions here do nothing: each is a law, stated by its
//! clauses.

ghost use Rattle.std.specs.Prelude.{◌≡◌, ◌+◌, ◌<◌, ◌≤◌, ℕ, Bool, true, false, All, Contains, List, IsSome, length};
ghost use Rattle.roster_instance.specs.declared.choice.Choice.{Choice};
ghost use Rattle.roster_rules.specs.AllowedRows.{is_frozen};
ghost use Rattle.roster_rules.specs.HardRules.{keeps_hard};
ghost use Rattle.roster_instance.specs.Limits.{most_shifts, most_skills, most_weeks};
ghost use Rattle.roster_instance.specs.Meaning.{Meaning, day_count, nurse_count, shift_count, skill_count, week_count};
ghost use Rattle.roster_rules.specs.Prefix.{Summary};
ghost use Rattle.roster_instance.specs.Rosters.{Row, Rows, fits_case};
ghost use Rattle.roster_instance.specs.Sizes.{choice_count};
ghost use Rattle.roster_instance.specs.Small.{HasSmallNumbers, IsSmall};
ghost use Rattle.roster_offers.specs.ByStates.{Transitions, best_from, cheapest_of_rows};
ghost use Rattle.roster_offers.specs.Finds.{FindsBestRow, FindsCheapest, FindsCheapestAt, FindsLowCost, OffersThePresent, GivesItsCost, GivesItsCostAt, GivesThePenalty, best_offered, best_offered_at};
ghost use Rattle.roster_offers.specs.Offers.{IsPlainAtOne, best_by_states, best_of_offers, cheapest_by_shift, offered_rows, offers_of, open_offers, shift_offers};
ghost use Rattle.roster_offers.specs.Rises.{BestCostRises, DaysHaveRisen};
ghost use Rattle.roster_offers.specs.Lists.{AllAreOffersOf, HaveLowLabels, HaveLowLabelsAt, HaveUnkeptLabels, IsOfferOf, IsScaleOf};
ghost use Rattle.roster_offers.specs.declared.offer.Offer.{Offer};

/// The first of the cheapest of all rows of the days' offers is what the search from state to state gives,
/// with its cost, whatever the offers, the transitions and the end are.
pub fn cheapest_row_is_found_by_states()
    ensures { (offers : ℕ → List Offer) (next : Transitions Summary Offer)
        (finish : Summary → ℕ) (m d : ℕ) (s : Summary) → cheapest_of_rows offers next finish m
        d s ≡ best_from offers next finish m d s }
{}

/// Whatever a nurse is offered on each day, at whatever prices: if a row of the case has each of its choices
/// offered on its day and keeps the successions, the one after the history's last shift included, then the
/// search over a table of offers, one for each shift, gives a row. It is the first of the cheapest of those
/// rows. Its prices and what the nurse's own rules cost along it add up to what the start owes plus the cost
/// that the search gives.
pub fn cheapest_offered_row_is_found()
    ensures some { (c : Meaning) (n : ℕ) (offered : ℕ → Choice → Bool) (price : ℕ → Choice → ℕ)
        (row : Row) → Contains (offered_rows c n offered) row →
        IsSome (best_offered c n offered price) }
    ensures least { (c : Meaning) (n : ℕ) (offered : ℕ → Choice → Bool) (price : ℕ → Choice → ℕ) →
        FindsCheapest c n offered price }
    ensures cost { (c : Meaning) (n : ℕ) (offered : ℕ → Choice → Bool) (price : ℕ → Choice → ℕ) →
        GivesItsCost c n offered price }
{}

/// The same at any scale, where a row's cost is in parts of a point: its prices, and as many parts as the
/// scale says for each point that the nurse's own rules cost along it.
pub fn cheapest_offered_row_is_found_at_a_scale()
    ensures some { (c : Meaning) (n scale : ℕ) (can : ℕ → Choice → Bool) (price : ℕ → Choice → ℕ)
        (row : Row) → Contains (offered_rows c n can) row →
        IsSome (best_offered_at c n scale can price) }
    ensures least { (c : Meaning) (n scale : ℕ) (can : ℕ → Choice → Bool)
        (price : ℕ → Choice → ℕ) → FindsCheapestAt c n scale can price }
    ensures cost { (c : Meaning) (n scale : ℕ) (can : ℕ → Choice → Bool)
        (price : ℕ → Choice → ℕ) → GivesItsCostAt c n scale can price }
{}

/// For a roster that fits the case and keeps the hard rules, the search over a nurse's offers gives a row. It
/// is the nurse's best row, and the roster's penalty with it is the sum of what the other nurses' rows cost,
/// what the start owes, and the cost that the search gives. In a case with small numbers that cost is below
/// what stands for no row.
pub fn best_row_is_found_by_states()
    ensures some { (c : Meaning) (from : ℕ) (r : Rows) → fits_case c r ≡ true →
        keeps_hard c r ≡ true → (n : ℕ) → n < nurse_count c → IsSome (best_by_states c from r n) }
    ensures best { (c : Meaning) (from : ℕ) (r : Rows) → fits_case c r ≡ true →
        keeps_hard c r ≡ true → (n : ℕ) → n < nurse_count c → FindsBestRow c from r n }
    ensures below { (c : Meaning) (from : ℕ) (r : Rows) → fits_case c r ≡ true →
        keeps_hard c r ≡ true → (n : ℕ) → n < nurse_count c → IsSmall c → FindsLowCost c from r n }
    ensures penalty { (c : Meaning) (from : ℕ) (r : Rows) → fits_case c r ≡ true →
        keeps_hard c r ≡ true → (n : ℕ) → n < nurse_count c → GivesThePenalty c from r n }
{}

/// In a case with small numbers a label, the cost of the best row of some days from a state on, is at most
/// 714,740,250, below what stands for no row, whatever the state and the offers are. If no roster is kept, it
/// is at most 714,703,850 over a nurse's offers.
pub fn labels_are_low()
    ensures all { (c : Meaning) → HasSmallNumbers c → (n : ℕ) (offers : ℕ → List Offer)
        → AllAreOffersOf c offers → HaveLowLabels c n offers }
    ensures unkept { (c : Meaning) → IsSmall c → c.keep ≡ 0 → (from : ℕ) (r : Rows) (n : ℕ)
        → HaveUnkeptLabels c n (shift_offers c from r n) }
{}

/// The same at a scale, where labels are in parts of a point: from a day of the case on a label is at most
/// `most_label_at`, below what stands for no row.
pub fn scaled_labels_are_low()
    ensures { (c : Meaning) → HasSmallNumbers c → week_count c ≤ most_weeks → (n scale : ℕ) →
        IsScaleOf c scale → (offers : ℕ → List Offer) → HaveLowLabelsAt c n scale offers }
{}

/// At scale 1 the search is the one in whole points.
pub fn scale_one_is_plain()
    ensures { (c : Meaning) (n : ℕ) (offers : ℕ → List Offer) (m d : ℕ) (s : Summary) →
        IsPlainAtOne c n offers m d s }
{}

/// The offers of a day are choices of the case at small prices, and no more than the nurse has choices. For a
/// roster that fits the case and keeps the hard rules there is at least one, and on a frozen day exactly one:
/// the present choice. On another day everything that is open is offered.
pub fn offers_are_few()
    ensures each { (c : Meaning) → HasSmallNumbers c → shift_count c ≤ most_shifts →
        skill_count c ≤ most_skills → (from : ℕ) (r : Rows) (n d : ℕ) →
        All (IsOfferOf c) (offers_of c from r n d) }
    ensures few { (c : Meaning) (from : ℕ) (r : Rows) (n d : ℕ) →
        length (offers_of c from r n d) ≤ choice_count c n }
    ensures some { (c : Meaning) (from : ℕ) (r : Rows) → fits_case c r ≡ true →
        keeps_hard c r ≡ true → (n : ℕ) → n < nurse_count c → (d : ℕ) → d < day_count c →
        0 < length (offers_of c from r n d) }
    ensures frozen { (c : Meaning) (from : ℕ) (r : Rows) → fits_case c r ≡ true →
        keeps_hard c r ≡ true → (n : ℕ) → n < nurse_count c → OffersThePresent c from r n }
    ensures free { (c : Meaning) (from : ℕ) (r : Rows) (n d : ℕ) → is_frozen c from n d ≡ false →
        offers_of c from r n d ≡ open_offers c r n d }
{}

/// Of the offers for one shift the first of the cheapest is enough: the best row over these, with its cost,
/// is the best row over all, even if several are equally cheap. They are some of all offers, at least one if
/// there is one, and of a roster's offers on a day at most one for each shift and one for the day off.
pub fn one_offer_for_each_shift_is_enough()
    ensures best { (c : Meaning) (n : ℕ) (offers : ℕ → List Offer) (m d : ℕ) (s : Summary) →
        best_of_offers c n (λ day. cheapest_by_shift (offers day)) m d s ≡ best_of_offers c n offers
        m d s }
    ensures among { (offers : List Offer) (x : Offer) → Contains (cheapest_by_shift offers) x →
        Contains offers x }
    ensures fewer { (offers : List Offer) → length (cheapest_by_shift offers) ≤ length offers }
    ensures some { (offers : List Offer) → 0 < length offers →
        0 < length (cheapest_by_shift offers) }
    ensures few { (c : Meaning) (from : ℕ) (r : Rows) (n d : ℕ) →
        length (shift_offers c from r n d) ≤ 1 + shift_count c }
{}

/// After prices have changed, the best row's cost has fallen by no more than the days say. Let every new
/// offer of a day have an old one for the same shift, and let its price be higher than that one's by at least
/// `rise` of the day less `fall` of the day. If the new offers have a best row, the old ones have one too,
/// and its cost plus all that has risen is at most the new one's plus all that has fallen.
pub fn cost_rises_with_prices()
    ensures { (c : Meaning) (n : ℕ) (old new : ℕ → List Offer) (rise fall : ℕ → ℕ) →
        DaysHaveRisen c rise fall old new → BestCostRises c n rise fall old new }
{}
