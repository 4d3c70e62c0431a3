//! How two clocks differ.

/// The times of a text are below it: 2^61 microseconds.
pub const TIME_LIMIT: u64 = 1 << 61;

/// How far the recording's clock is ahead of the model's, in microseconds: `ahead` less `behind`.
/// At one moment the model's time and `ahead` make as much as the recording's time and `behind`.
#[derive(Clone, Copy)]
pub struct ClockShift {
    /// How far the recording's clock is ahead.
    pub ahead: u64,
    /// How far it is behind.
    pub behind: u64,
}

/// Both clocks show the same time.
pub const NO_SHIFT: ClockShift = ClockShift {
    ahead: 0,
    behind: 0,
};
