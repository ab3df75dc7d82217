/// What a call answers.
#[derive(Clone, Copy, Debug, PartialEq, Eq)]
pub enum Sent {
    /// The entry stands in the history at this place, counted from 0.
    Accepted { place: u64 },
    /// The entry wasn't lawful at its turn.
    Unlawful,
}
