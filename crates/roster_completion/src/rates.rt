//! The rates at which completion bounds charge for what is counted over all days.

/// What a completion bound charges for each worked day and for each worked weekend to come, in the parts of a
/// point of the search's scale.
#[derive(Clone, Copy)]
pub struct Rates {
    pub day: u32,
    pub weekend: u32,
}
