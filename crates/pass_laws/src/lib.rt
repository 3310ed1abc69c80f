// What the exact pass over the buckets of a level has collected. A fault does not end the pass, since it must run without a branch, four
// slots at a time. So everything is in words of 32 bits and is tested once a level.
#![tactic(auto)]

// The bounds of `short` and `high` are no invariant of the type: they grow with each bucket, and each step says by how much.
#[derive(Clone, Copy)]
pub struct Seen {
    // Where the next bucket must start; at level 0 the least offset that it may have.
    pub end: u32,
    // Bits that must be 0.
    pub faults: u32,
    // The joined bits of numbers that must be below 2 ^ k.
    pub reach: u32,
    // The joined bits of weights that must be below 2 ^ (i + 1).
    pub heavy: u32,
    // How many numbers are smaller than they must be.
    pub short: u32,
    // The sum of the weights modulo 2 ^ 32.
    pub low: u32,
    // The sum of the weights' upper 16 bits.
    pub high: u32,
}

// The weight of a level's buckets, and whether they are sound. This is no Option, because `Judged` promises the weight of unsound buckets too.
#[derive(Clone, Copy)]
pub struct Verdict {
    pub weight: u64,
    pub sound: bool,
}
