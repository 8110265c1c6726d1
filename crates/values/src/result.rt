// What the steps of the value walk take and give.

// The rows that are out, and the visits begun.
#[derive(Clone, Copy, Drop)]
pub struct Tally {
    pub rows: u32,
    pub visits: u32,
}

// The end of a value, so that it can be flattened without reading rows back: how many SEQ rows it ends in, how many instructions they count
// together, and the place that its innermost value loads, if it is a load (a load is one row).
#[derive(Clone, Copy, Drop)]
pub struct Trailing {
    pub sequences: u32,
    pub instructions: u32,
    pub loaded: Option<u32>,
}

// A value whose rows are out. `block` is the one that it ends in; for a value terminal it is the fallthrough.
#[derive(Clone, Copy, Drop)]
pub struct ValueBlockResult {
    pub block: u32,
    pub place: u32,
    pub id: u32,
    pub tally: Tally,
    pub trailing: Trailing,
}
