// The histories that are posted, the records that are set from outside, and the lists that are totalled.

// Months paid, months missed, a mark, its times.
#[derive(Clone, Copy)]
pub struct History(pub u8, pub u8, pub u8, pub u8);

// An amount, and what is set from outside: the place of a mark, the mark, the count.
#[derive(Clone, Copy)]
pub struct Forged(pub u32, pub usize, pub u8, pub usize);

// Of a lump sum, what is set from outside: how many of the first marks, to which mark, the count.
#[derive(Clone, Copy)]
pub struct ForgedLumpSum(pub usize, pub u8, pub usize);

pub const HISTORIES: [History; 20] = [
    // none, some, a gap of eleven, resumed
    History(0, 0, 1, 0),
    History(5, 0, 1, 0),
    History(5, 11, 1, 0),
    History(5, 11, 1, 1),
    History(18, 4, 1, 6),
    // twelve missed: nothing paid after them, but missed or ended still
    History(5, 12, 1, 0),
    History(5, 12, 1, 1),
    History(5, 12, 0, 1),
    History(5, 12, 2, 1),
    // the first month missed, or ended
    History(0, 1, 1, 0),
    History(0, 0, 2, 1),
    // values above 2
    History(0, 0, 3, 1),
    History(5, 0, 3, 1),
    History(5, 0, 255, 1),
    // ended
    History(11, 0, 2, 1),
    History(12, 0, 2, 1),
    History(12, 0, 2, 2),
    // full term, and one more
    History(60, 0, 1, 0),
    History(60, 0, 1, 1),
    History(60, 0, 3, 1),
];

pub const LUMP_SUM: [History; 14] = [
    // none, some, the first year, and one more
    History(0, 0, 1, 0),
    History(1, 0, 1, 0),
    History(12, 0, 1, 0),
    History(12, 0, 1, 1),
    History(12, 0, 3, 1),
    // ended in the last month, in the first, for the rest of the year, and one more
    History(11, 0, 2, 1),
    History(0, 0, 2, 1),
    History(0, 0, 2, 12),
    History(0, 0, 2, 13),
    // a month missed: the first, a later one, and one before a paid one
    History(0, 1, 1, 0),
    History(1, 1, 1, 0),
    History(1, 1, 1, 1),
    // values above 2
    History(0, 0, 3, 1),
    History(1, 0, 3, 1),
];

// Into a record that has ended.
pub const AFTER_THE_END: [History; 4] = [
    History(1, 0, 1, 0),
    History(0, 1, 1, 0),
    History(0, 0, 2, 1),
    History(0, 0, 3, 1),
];

pub const FORGED: [Forged; 10] = [
    Forged(1000, 0, 1, 1),
    Forged(1000, 0, 1, 0),
    Forged(1000, 239, 1, 0),
    Forged(1000, 0, 0, 1),
    Forged(1000, 0, 9, 1),
    Forged(1000, 0, 1, 61),
    Forged(1000, 0, 1, 240),
    Forged(1000, 0, 1, 241),
    Forged(1000, 0, 1, 99999),
    Forged(1100, 0, 0, 0), // no multiple of £250
];

pub const FORGED_LUMP_SUMS: [ForgedLumpSum; 12] = [
    ForgedLumpSum(1, 1, 1),
    ForgedLumpSum(1, 2, 1),
    ForgedLumpSum(12, 1, 12),
    ForgedLumpSum(12, 2, 12),
    // a mark more than the first year has
    ForgedLumpSum(13, 1, 13),
    ForgedLumpSum(13, 2, 13),
    ForgedLumpSum(240, 1, 240),
    // a mark of 0 or 9 among those in use
    ForgedLumpSum(1, 0, 1),
    ForgedLumpSum(1, 1, 2),
    ForgedLumpSum(1, 9, 1),
    // marks after those in use
    ForgedLumpSum(1, 1, 0),
    ForgedLumpSum(2, 1, 1),
];
