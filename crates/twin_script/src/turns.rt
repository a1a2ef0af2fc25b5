use s3_types::Sequence;

/// One of the two jobs.
#[derive(Clone, Copy, PartialEq, Eq)]
pub enum Side {
    First,
    Second,
}

/// A turn: `count` events of a side, 1 to 100,000.
#[derive(Clone, Copy, PartialEq, Eq)]
pub struct TwinTurn {
    pub side: Side,
    pub count: u32,
}

/// Turns in order.
pub type TurnList = Sequence<TwinTurn>;
