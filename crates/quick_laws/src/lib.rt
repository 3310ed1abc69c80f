// What the quick pass over the buckets of a level from 1 on has collected. It makes fewer tests than the exact pass, and they ask more than
// soundness does: if one fails, the exact pass decides.
#![tactic(auto)]

#[derive(Clone, Copy)]
pub struct Quick {
    // Where the next bucket must start.
    pub end: u32,
    // Bits that must be 0.
    pub faults: u32,
    // The joined bits of numbers that must be below 2 ^ (k + 1): ends that are marked, the first offset of each row, and the first width
    // less 1.
    pub reach: u32,
    // The joined bits of how much each weight is above the least one.
    pub extra: u32,
}

// What the quick pass has collected in four rows of slots at once, each for itself. The rows are no array: the definitions
// `quick_turn` and `join_rows` name the four, each with words of its own.
#[derive(Clone, Copy)]
pub struct Rows {
    pub one: Quick,
    pub two: Quick,
    pub three: Quick,
    pub four: Quick,
    // Bits that must be 0: where a row must start, compared with where it does.
    pub gap: u32,
    // Where the next bucket must start.
    pub end: u32,
}
