// What is asked, row by row. The numbers of a row are named in asked.rt.
//
// The tables are statics: a check carries the rows of a constant through all of the function that names it.
use crate::asked::Asked::*;
use crate::asked::{Asked, On};

// The worked examples of document 000, its headroom, and its examples A1 to A4.
pub static DOCUMENT_000: [Asked; 16] = [
    Quote(On(40, 67, 0, 1, 1, 0, 2000), 0, 0), // example 1
    Quote(On(31, 68, 0, 2, 1, 10, 1750), 0, 1), // example 2
    Quote(On(32, 68, 0, 2, 1, 10, 1750), 0, 2), // example 3
    Quote(On(54, 66, 5, 2, 1, 10, 1750), 0, 3), // example 4
    // example 5: the two values that it takes off
    CapDecision(112100),
    Settle(On(40, 67, 0, 2, 1, 9, 1250), &[(1, 60), (2, 1)]), // A1: notice after five years
    Settle(On(46, 67, 0, 2, 1, 9, 1250), &[(1, 61), (2, 1)]), // A2: notice a month later
    Settle(On(50, 67, 0, 2, 1, 9, 1250), &[(1, 5)]), // A3: five months paid
    Settle(On(50, 67, 0, 2, 1, 9, 1250), &[(1, 5), (0, 7)]), // A3: then a gap that is open
    Settle(On(50, 67, 0, 2, 1, 9, 1250), &[(1, 5), (0, 12)]), // A3: and one that is too long
    Settle(On(50, 67, 0, 2, 1, 9, 1250), &[(1, 5), (2, 1)]), // A3: or notice
    Settle(On(54, 67, 0, 1, 1, 4, 1000), &[(1, 19)]), // A4: before the gap
    Settle(On(54, 67, 0, 1, 1, 4, 1000), &[(1, 19), (0, 8)]), // A4: in it
    Settle(On(54, 67, 0, 1, 1, 4, 1000), &[(1, 19), (0, 8), (1, 1)]), // A4: a month after it
    Settle(On(54, 67, 0, 1, 1, 4, 1000), &[(1, 19), (0, 8), (1, 12)]), // A4: twelve months after it
    Settle(On(54, 67, 0, 1, 1, 4, 1000), &[(1, 19), (0, 8), (1, 21)]), // A4: paid to the end of the term
];

// Document 001's working, with the rates that it prints: £1,500, six times £250, over 4 years, of which nine months are paid.
pub static DOCUMENT_001: [Asked; 8] = [
    // contribution times £250, and the rate for one year
    Nearest(1333500000, 32940), // 533.40, at 66
    Nearest(1264500000, 31240), // 505.80, at 67
    Blend(5, 53340, 50580), // the contribution
    Blend(9, 0, 40483), // nine months at 66
    Blend(9, 0, 40477), // nine months at 67
    Blend(5, 30362, 30358), // the credit
    // its contract after nine months, and with notice after twelve
    Settle(On(60, 66, 5, 1, 1, 4, 1500), &[(1, 9)]),
    Settle(On(60, 66, 5, 1, 1, 4, 1500), &[(1, 12), (2, 1)]),
];

// The rates of G5, and where D65 ends.
pub static RATES: [Asked; 10] = [
    Rate(2, 67, 50, 1),
    Rate(2, 67, 50, 9),
    Rate(2, 65, 50, 1),
    Rate(2, 65, 50, 2),
    Rate(2, 65, 50, 3),
    Rate(2, 65, 50, 4),
    Rate(2, 65, 50, 5),
    Rate(2, 65, 63, 1),
    Rate(2, 65, 63, 2), // none is printed
    Rate(2, 65, 64, 1), // none is printed
];

// The cap decision, Quote, Settle and Schedule at their edges. A remark that starts with a number names the refusal.
pub static EDGES: [Asked; 146] = [
    CapDecision(0),
    CapDecision(1),
    CapDecision(25000),
    CapDecision(625000),
    CapDecision(625001),
    CapDecision(650000),
    CapDecision(650001),
    CapDecision(18446744073709551615),
    Quote(On(50, 65, 0, 2, 1, 5, 1000), 0, 0), // monthly
    Quote(On(40, 67, 0, 1, 2, 0, 2000), 0, 1), // an employer's lump sum
    Quote(On(54, 66, 5, 2, 1, 0, 250), 0, 2), // a lump sum with odd months
    Quote(On(50, 67, 11, 2, 1, 9, 1250), 0, 3), // the latest odd month
    Quote(On(31, 68, 0, 2, 1, 20, 250), 0, 4), // the latest pension age
    Quote(On(64, 65, 0, 2, 1, 0, 6500), 0, 5), // the greatest amount
    Quote(On(50, 65, 0, 0, 1, 5, 1000), 0, 41), // 1
    Quote(On(50, 65, 0, 3, 1, 5, 1000), 0, 41), // 1
    Quote(On(50, 64, 11, 2, 1, 5, 1000), 0, 41), // 2
    Quote(On(50, 66, 12, 2, 1, 5, 1000), 0, 41), // 2
    Quote(On(50, 68, 1, 2, 1, 5, 1000), 0, 41), // 2
    Quote(On(50, 69, 0, 2, 1, 5, 1000), 0, 41), // 2
    Quote(On(30, 65, 0, 2, 1, 21, 1000), 0, 41), // 3
    Quote(On(50, 65, 0, 2, 0, 5, 1000), 0, 41), // 4
    Quote(On(50, 65, 0, 2, 3, 0, 1000), 0, 41), // 4
    Quote(On(50, 65, 0, 2, 2, 5, 1000), 0, 41), // 4: an employer's monthly payments
    Quote(On(15, 65, 0, 2, 1, 5, 1000), 0, 41), // 5
    Quote(On(16, 65, 0, 2, 1, 5, 1000), 0, 41), // the lowest age
    Quote(On(15, 65, 0, 2, 1, 0, 1000), 0, 41), // 5: lump sum
    Quote(On(65, 68, 0, 2, 1, 0, 1000), 0, 41), // 5: lump sum
    Quote(On(63, 65, 0, 2, 1, 1, 1000), 0, 41), // the last rate of D65
    Quote(On(63, 65, 0, 2, 1, 2, 1000), 0, 41), // 5
    Quote(On(64, 65, 0, 2, 1, 1, 1000), 0, 41), // 5
    Quote(On(64, 65, 1, 2, 1, 1, 1000), 0, 41), // 5: the upper table alone has a rate
    Quote(On(50, 65, 0, 2, 1, 5, 0), 0, 41), // 7
    Quote(On(50, 65, 0, 2, 1, 5, 249), 0, 41), // 7
    Quote(On(50, 65, 0, 2, 1, 5, 1100), 0, 41), // 7
    Quote(On(50, 65, 0, 2, 1, 5, 6600), 0, 41), // 7, and above the cap
    Quote(On(50, 65, 0, 2, 1, 5, 6750), 0, 41), // 8
    Quote(On(50, 65, 0, 2, 1, 5, 1000), 550000, 41), // at the cap
    Quote(On(50, 65, 0, 2, 1, 5, 1000), 550001, 41), // 8: a penny above it
    Quote(On(50, 65, 0, 2, 1, 5, 1000), 18446744073709551615, 41), // 8
    Quote(On(50, 67, 0, 2, 1, 9, 5250), 112100, 41), // example 5's headroom
    Quote(On(50, 67, 0, 2, 1, 9, 5500), 112100, 41), // 8
    Quote(On(50, 65, 0, 2, 1, 5, 1000), 0, 999998), // the last number there is
    Quote(On(50, 65, 0, 2, 1, 5, 1000), 0, 999999), // 9
    Quote(On(50, 65, 0, 2, 1, 5, 1000), 0, 4294967295), // 9
    Quote(On(50, 65, 0, 2, 1, 5, 1000), 550001, 999999), // 8 before 9
    Quote(On(0, 0, 12, 0, 0, 21, 1), 650001, 999999), // 1 before all
    Settle(On(50, 65, 0, 3, 1, 5, 1000), &[(0, 256)]), // 1, before the marks
    Settle(On(50, 66, 12, 2, 1, 5, 1000), &[(0, 256)]), // 2
    Settle(On(50, 68, 1, 2, 1, 5, 1000), &[]), // 2
    Settle(On(30, 65, 0, 2, 1, 21, 1000), &[(0, 256)]), // 3
    Settle(On(50, 65, 0, 2, 3, 5, 1000), &[(0, 256)]), // 4
    Settle(On(50, 65, 0, 2, 2, 5, 1000), &[(0, 256)]), // 4: an employer's monthly payments
    Settle(On(64, 65, 0, 2, 1, 1, 1000), &[(0, 256)]), // 5
    Settle(On(65, 68, 0, 2, 1, 0, 1000), &[(0, 256)]), // 5: lump sum
    Settle(On(50, 65, 0, 2, 1, 5, 0), &[]), // 7
    Settle(On(50, 65, 0, 2, 1, 5, 1100), &[]), // 7
    Settle(On(50, 65, 0, 2, 1, 5, 1100), &[(3, 1)]), // 7, before the marks
    Settle(On(50, 65, 0, 2, 1, 5, 6750), &[(1, 60)]), // 8
    Settle(On(50, 65, 0, 2, 1, 5, 1000), &[(1, 61)]), // 10
    Settle(On(50, 65, 0, 2, 1, 5, 1000), &[(3, 61)]), // 10, before any mark is looked at
    Settle(On(40, 65, 0, 2, 1, 20, 1000), &[(1, 241)]), // 10
    Settle(On(40, 67, 0, 1, 1, 0, 2000), &[(1, 1)]), // a lump sum takes marks
    Settle(On(40, 67, 0, 1, 1, 0, 2000), &[(1, 12)]), // the most of them
    Settle(On(40, 67, 0, 1, 1, 0, 2000), &[(1, 13)]), // 10: lump sum
    Settle(On(40, 67, 0, 1, 1, 0, 2000), &[(3, 13)]), // 10, before any mark is looked at
    Settle(On(50, 65, 0, 2, 1, 5, 1000), &[(3, 1)]), // 11
    Settle(On(50, 65, 0, 2, 1, 5, 1000), &[(1, 3), (3, 1)]), // 11
    Settle(On(50, 65, 0, 2, 1, 5, 1000), &[(1, 59), (255, 1)]), // 11
    Settle(On(50, 65, 0, 2, 1, 5, 1000), &[(1, 5), (2, 1), (3, 1)]), // 11 before 12 at one place
    Settle(On(40, 67, 0, 1, 1, 0, 2000), &[(1, 2), (3, 1)]), // 11: lump sum
    Settle(On(40, 67, 0, 1, 1, 0, 2000), &[(1, 11), (255, 1)]), // 11
    Settle(On(40, 67, 0, 1, 1, 0, 2000), &[(2, 1), (3, 1)]), // 11 before 12 at one place
    Settle(On(50, 65, 0, 2, 1, 5, 1000), &[(0, 1), (3, 1)]), // 12: the leftmost decides
    Settle(On(50, 65, 0, 2, 1, 5, 1000), &[(1, 5), (2, 1), (1, 1)]), // 12: paid after the end
    Settle(On(50, 65, 0, 2, 1, 5, 1000), &[(1, 5), (2, 1), (0, 1)]), // 12: missed after the end
    Settle(On(50, 65, 0, 2, 1, 5, 1000), &[(1, 6), (0, 13), (1, 1)]), // 12: paid after too long a gap
    Settle(On(40, 67, 0, 1, 1, 0, 2000), &[(0, 1)]), // 12: lump sum, which misses no month
    Settle(On(40, 67, 0, 1, 1, 0, 2000), &[(1, 11), (0, 1)]), // 12: a 0 later
    Settle(On(40, 67, 0, 1, 1, 0, 2000), &[(1, 4), (2, 1), (1, 1)]), // 12: back after the end
    Settle(On(40, 67, 0, 1, 1, 0, 2000), &[(1, 4), (2, 1), (0, 1)]), // 12: missed after the end
    Settle(On(40, 67, 0, 1, 1, 0, 2000), &[(1, 1), (0, 1), (3, 1)]), // 12: the leftmost decides
    Settle(On(50, 65, 0, 2, 1, 5, 1000), &[]), // status 0
    Settle(On(50, 65, 0, 2, 1, 5, 1000), &[(1, 1)]), // status 1
    Settle(On(50, 65, 0, 2, 1, 5, 1000), &[(1, 59)]),
    Settle(On(50, 65, 0, 2, 1, 5, 1000), &[(1, 1), (0, 11), (1, 1)]),
    Settle(On(54, 66, 5, 2, 1, 10, 1750), &[(1, 30)]), // both tables
    Settle(On(50, 65, 0, 2, 1, 5, 1000), &[(1, 1), (0, 1)]), // status 2
    Settle(On(50, 65, 0, 2, 1, 5, 1000), &[(1, 18), (0, 11)]),
    Settle(On(50, 65, 0, 2, 1, 5, 1000), &[(1, 60)]), // status 3
    Settle(On(50, 65, 0, 2, 1, 5, 6500), &[(1, 60)]),
    Settle(On(40, 65, 0, 2, 1, 20, 1000), &[(1, 240)]),
    Settle(On(54, 66, 5, 2, 1, 10, 1750), &[(1, 120)]),
    Settle(On(50, 65, 0, 2, 1, 5, 1000), &[(1, 59), (0, 1)]), // status 4: the term is over
    Settle(On(50, 65, 0, 2, 1, 5, 1000), &[(1, 12), (0, 1), (1, 47)]),
    Settle(On(50, 65, 0, 2, 1, 1, 1000), &[(1, 1), (0, 10), (1, 1)]),
    Settle(On(50, 65, 0, 2, 1, 5, 1000), &[(1, 12), (0, 12)]), // status 4: the gap is too long
    Settle(On(50, 65, 0, 2, 1, 5, 1000), &[(1, 12), (0, 12), (2, 1)]),
    Settle(On(50, 65, 0, 2, 1, 5, 1000), &[(1, 18), (2, 42)]), // status 4: notice
    Settle(
        On(50, 65, 0, 2, 1, 5, 1000),
        &[(1, 5), (0, 2), (1, 5), (2, 1)],
    ), // twelve months up to the last paid one
    Settle(On(54, 66, 5, 2, 1, 10, 1750), &[(1, 30), (2, 1)]),
    Settle(
        On(50, 65, 0, 2, 1, 5, 1000),
        &[(1, 5), (0, 1), (1, 5), (2, 1)],
    ), // status 5: eleven of them, ten paid
    Settle(On(50, 65, 0, 2, 1, 5, 1000), &[(1, 11), (0, 12)]),
    Settle(On(50, 65, 0, 2, 1, 5, 1000), &[(2, 60)]),
    Settle(On(50, 65, 0, 2, 1, 1, 1000), &[(1, 1), (0, 11)]), // the term is over
    Settle(On(54, 66, 5, 2, 1, 10, 1750), &[(1, 11), (2, 1)]),
    Settle(On(40, 67, 0, 1, 1, 0, 2000), &[(1, 11), (2, 1)]), // status 5: a lump sum goes back
    Settle(On(40, 67, 0, 1, 1, 0, 2000), &[(2, 1)]), // in the first month
    Settle(On(40, 67, 0, 1, 1, 0, 2000), &[(1, 3), (2, 5)]), // once, however many months are marked
    Settle(On(40, 67, 0, 1, 1, 0, 2000), &[(2, 12)]),
    Settle(On(40, 67, 0, 1, 2, 0, 2000), &[(1, 1), (2, 1)]), // an employer's
    Settle(On(54, 66, 5, 2, 2, 0, 250), &[(1, 6), (2, 1)]), // with odd months
    Settle(On(40, 67, 0, 1, 1, 0, 2000), &[]), // status 6
    Settle(On(40, 67, 0, 1, 1, 0, 2000), &[(1, 11)]),
    Settle(On(40, 67, 0, 1, 2, 0, 2000), &[(1, 12)]), // an employer's
    Settle(On(54, 66, 5, 2, 2, 0, 250), &[]), // with odd months
    Settle(On(54, 66, 5, 2, 2, 0, 250), &[(1, 12)]),
    Schedule(On(50, 65, 0, 2, 1, 2, 1000), &[(1, 11), (0, 2), (1, 3)], 18), // a gap over the end of a year
    Schedule(On(54, 66, 5, 2, 1, 10, 1750), &[(1, 2), (0, 1), (1, 2)], 7), // both tables
    Schedule(On(50, 65, 0, 2, 1, 5, 1000), &[(1, 3)], 3), // as many entries as marks
    Schedule(On(50, 65, 0, 2, 1, 5, 1000), &[(1, 3), (2, 2)], 6), // an early end
    Schedule(On(50, 65, 0, 2, 1, 5, 1000), &[(1, 12), (2, 2)], 15), // a later one
    Schedule(On(50, 65, 0, 2, 1, 1, 1000), &[(1, 3), (0, 9)], 13), // a term that runs out in a gap
    Schedule(On(50, 65, 0, 2, 1, 5, 1000), &[], 2), // no marks
    Schedule(On(50, 65, 0, 2, 1, 5, 1000), &[], 0),
    Schedule(On(40, 67, 0, 1, 1, 0, 2000), &[], 2), // lump sum
    Schedule(On(40, 67, 0, 1, 1, 0, 2000), &[(1, 12)], 12), // as many entries as marks
    Schedule(On(40, 67, 0, 1, 1, 0, 2000), &[(1, 3), (2, 2)], 7), // a lump sum that goes back
    Schedule(On(40, 67, 0, 1, 1, 0, 2000), &[(2, 1)], 2), // in its first month
    Schedule(On(54, 66, 5, 2, 2, 0, 250), &[(1, 2), (2, 1)], 3), // an employer's with odd months
    Schedule(On(50, 65, 0, 2, 1, 5, 1000), &[(1, 5)], 4), // 14
    Schedule(On(50, 65, 0, 2, 1, 5, 1000), &[(1, 1)], 0), // 14
    Schedule(On(40, 67, 0, 1, 1, 0, 2000), &[(1, 5)], 4), // 14: lump sum
    Schedule(On(40, 67, 0, 1, 1, 0, 2000), &[(1, 4), (2, 1)], 4), // 14
    Schedule(On(40, 67, 0, 1, 1, 0, 2000), &[(2, 1)], 0), // 14
    Schedule(On(50, 65, 0, 2, 1, 5, 1000), &[(1, 2), (3, 1)], 2), // 11 before 14
    Schedule(On(50, 65, 0, 2, 1, 5, 1000), &[(1, 2), (3, 1)], 5), // 11
    Schedule(On(40, 67, 0, 1, 1, 0, 2000), &[(1, 2), (3, 1)], 2), // 11 before 14: lump sum
    Schedule(On(40, 67, 0, 1, 1, 0, 2000), &[(1, 2), (3, 1)], 5), // 11
    Schedule(On(50, 65, 0, 2, 1, 5, 1000), &[(0, 1)], 5), // 12
    Schedule(On(50, 65, 0, 2, 1, 5, 1000), &[(1, 2), (2, 1), (1, 1)], 5), // 12
    Schedule(On(40, 67, 0, 1, 1, 0, 2000), &[(1, 2), (0, 1)], 5), // 12: lump sum
    Schedule(On(40, 67, 0, 1, 1, 0, 2000), &[(1, 2), (2, 1), (1, 1)], 5), // 12
    Schedule(On(50, 65, 0, 2, 1, 5, 1000), &[(1, 61)], 5), // 10
    Schedule(On(40, 67, 0, 1, 1, 0, 2000), &[(1, 13)], 13), // 10: lump sum
    Schedule(On(50, 65, 0, 3, 1, 5, 1000), &[(1, 1)], 5), // 1
];

// Contracts paid off, P1 to P7. A remark that starts with a number names the refusal.
pub static PAY_OFFS: [Asked; 41] = [
    PayOff(On(50, 65, 0, 2, 1, 5, 1000), &[(1, 18)], 51, 1011), // eighteen paid
    PayOff(
        On(50, 65, 0, 2, 1, 5, 1000),
        &[(1, 18), (0, 4), (1, 6)],
        52,
        1011,
    ), // with the gap
    PayOff(On(50, 65, 0, 2, 1, 5, 1000), &[(1, 18), (0, 4)], 51, 1011), // in the gap
    PayOff(On(50, 65, 0, 2, 1, 5, 1000), &[(1, 12), (2, 1)], 51, 1011), // ceased
    PayOff(On(50, 65, 0, 2, 1, 5, 1000), &[(1, 60)], 55, 1011), // complete
    PayOff(On(50, 65, 0, 2, 1, 5, 1000), &[(1, 59), (0, 1)], 55, 1011), // ceased with a month missed
    PayOff(On(54, 66, 5, 2, 1, 10, 1750), &[(1, 30)], 56, 1011), // both tables
    PayOff(On(50, 68, 0, 1, 1, 5, 1000), &[(1, 18)], 51, 1011), // the latest pension age, which needs no upper lump sum
    PayOff(On(60, 66, 5, 1, 1, 4, 1500), &[(1, 9)], 61, 1011), // document 001's example 5 at this scheme's rates
    PayOff(On(50, 65, 0, 2, 1, 5, 1000), &[(1, 18)], 51, 1000), // the lowest increase
    PayOff(On(50, 65, 0, 2, 1, 5, 1000), &[(1, 18)], 51, 9999), // the highest
    PayOff(
        On(50, 65, 0, 2, 1, 5, 1000),
        &[(1, 18), (0, 4), (1, 6)],
        52,
        1500,
    ), // half as much again
    PayOff(On(50, 65, 0, 2, 1, 5, 1000), &[(1, 18)], 16, 1011), // the lowest age now, below that at the election
    PayOff(On(50, 65, 0, 2, 1, 5, 1000), &[(1, 18)], 64, 1011), // the highest
    PayOff(On(63, 65, 0, 2, 1, 1, 6500), &[(1, 1)], 64, 9999), // the greatest amount at the highest of both
    PayOff(On(50, 65, 0, 2, 1, 5, 1000), &[(1, 11), (2, 1)], 51, 1011), // 16: refunded
    PayOff(On(50, 65, 0, 2, 1, 5, 1000), &[], 50, 1011), // 16: no marks
    PayOff(On(40, 67, 0, 1, 1, 0, 2000), &[], 40, 1011), // 16: lump sum
    PayOff(On(40, 67, 0, 1, 1, 0, 2000), &[(1, 12)], 41, 1011), // 16: its first year over
    PayOff(On(40, 67, 0, 1, 1, 0, 2000), &[(1, 11), (2, 1)], 40, 1011), // 16: gone back
    PayOff(On(50, 65, 0, 2, 1, 5, 1000), &[(1, 18)], 51, 999), // 17
    PayOff(On(50, 65, 0, 2, 1, 5, 1000), &[(1, 18)], 51, 10000), // 17
    PayOff(On(50, 65, 0, 2, 1, 5, 1000), &[(1, 18)], 51, 0), // 17
    PayOff(On(50, 65, 0, 2, 1, 5, 1000), &[(1, 18)], 51, 4294967295), // 17
    PayOff(On(50, 65, 0, 2, 1, 5, 1000), &[(1, 18)], 65, 1011), // 5
    PayOff(On(50, 65, 0, 2, 1, 5, 1000), &[(1, 60)], 65, 1011), // 5: complete
    PayOff(On(50, 65, 0, 2, 1, 5, 1000), &[(1, 18)], 15, 1011), // 5
    PayOff(On(50, 65, 0, 2, 1, 5, 1000), &[(1, 18)], 4294967295, 1011), // 5
    PayOff(On(50, 65, 0, 2, 1, 5, 1000), &[(1, 11), (2, 1)], 65, 999), // 16 before 17 and 5
    PayOff(On(40, 67, 0, 1, 1, 0, 2000), &[], 65, 999), // 16 before 17 and 5: lump sum
    PayOff(On(40, 67, 0, 1, 1, 0, 2000), &[(1, 12)], 65, 999), // 16 before 17 and 5
    PayOff(On(40, 67, 0, 1, 1, 0, 2000), &[(1, 11), (2, 1)], 65, 999), // 16 before 17 and 5: gone back
    PayOff(On(50, 65, 0, 2, 1, 5, 1000), &[(1, 60)], 65, 10000), // 17 before 5: complete
    PayOff(On(50, 65, 0, 2, 1, 5, 1100), &[(1, 18)], 65, 999), // 7, as Settle refuses
    PayOff(On(64, 65, 0, 2, 1, 1, 1000), &[(1, 1)], 64, 1011), // 5, as Settle refuses
    PayOff(On(50, 65, 0, 2, 1, 5, 1000), &[(1, 61)], 65, 999), // 10, as Settle refuses
    PayOff(On(40, 67, 0, 1, 1, 0, 2000), &[(1, 13)], 65, 999), // 10: lump sum
    PayOff(On(50, 65, 0, 2, 1, 5, 1000), &[(1, 3), (3, 1)], 65, 999), // 11 at 3, as Settle refuses
    PayOff(On(40, 67, 0, 1, 1, 0, 2000), &[(1, 2), (3, 1)], 65, 999), // 11 at 2: lump sum
    PayOff(
        On(50, 65, 0, 2, 1, 5, 1000),
        &[(1, 1), (0, 12), (1, 1)],
        65,
        999,
    ), // 12 at 13, as Settle refuses
    PayOff(On(40, 67, 0, 1, 1, 0, 2000), &[(1, 5), (0, 1)], 65, 999), // 12 at 5: lump sum
];

// Exact halves, and quotients beside them, H1 and H2: a half goes to the even number, but that of a pay-off goes up.
pub static HALVES: [Asked; 22] = [
    Nearest(1, 2),
    Nearest(3, 2),
    Nearest(18446744073709551613, 2),
    Nearest(18446744073709551615, 2), // the greatest number there is
    Nearest(9223372036854775807, 18446744073709551614),
    Nearest(9223372036854775807, 18446744073709551615), // just below a half
    Nearest(9223372036854775808, 18446744073709551615), // just above
    Nearest(18446744073709551615, 0), // over nothing there is nothing
    Blend(6, 32799, 32798), // down, to an even figure
    Blend(6, 32799, 32800), // up, to an even figure
    Quote(On(50, 65, 5, 2, 1, 4, 750), 0, 0), // contribution, 21,692.5 pence: down
    Quote(On(50, 65, 7, 2, 1, 4, 750), 0, 1), // 21,537.5: up
    Settle(On(50, 65, 5, 2, 1, 4, 750), &[(1, 3), (2, 1)]), // refunded: three times the first
    Settle(On(50, 67, 0, 2, 1, 8, 1500), &[(1, 24)]), // whole year, 44,062.5: down
    Settle(On(50, 67, 0, 2, 1, 3, 1000), &[(1, 24)]), // 68,437.5: up
    Settle(On(50, 65, 0, 2, 1, 5, 1000), &[(1, 18)]), // month value, 32,798.5: down
    Settle(On(50, 65, 0, 2, 1, 5, 1000), &[(1, 18), (0, 4), (1, 6)]), // the same, then a gap
    Settle(On(50, 65, 0, 2, 1, 5, 1000), &[(1, 6)]), // 11,129.5: up
    Settle(On(50, 65, 0, 2, 1, 2, 1000), &[(1, 1), (0, 5), (1, 1)]), // a run from 25,680.5 on: the credit is a penny more than with a half up
    Settle(On(50, 65, 6, 2, 1, 2, 1000), &[(1, 1)]), // both tables, 4,278.5: down
    Settle(On(50, 65, 10, 2, 1, 2, 1000), &[(1, 1)]), // 4,277.5: up
    PayOff(On(50, 65, 0, 2, 1, 5, 1000), &[(1, 18)], 51, 1250), // increased pension, 84,002.5: up, by the pay-off's own rule
];

// The examples of document 003 that work out an earliest reduced retirement age.
pub static DOCUMENT_003: [Asked; 3] = [
    ReductionLimit(67, 50, 30000, [896, 946, 1000], 0, 692400), // example A, with the age, pay and limit of B
    ReductionLimit(67, 50, 30000, [896, 946, 1000], 400000, 692400), // example B
    ReductionLimit(68, 35, 70000, [850, 896, 946], 200000, 692400), // example C
];

// The reduction limit, L1 to L10: the search at its edges, exact halves of B, the greatest figures.
pub static SEARCHES: [Asked; 24] = [
    ReductionLimit(67, 50, 30000, [896, 946, 1000], 0, 0), // no existing pension: the limit decides nothing
    ReductionLimit(67, 50, 30000, [896, 946, 1000], 0, 100000000),
    ReductionLimit(67, 50, 30000, [896, 946, 1000], 1, 108354), // a penny of existing pension, B = C: the next
    ReductionLimit(67, 50, 30000, [896, 946, 1000], 1, 108355), // C a penny more
    ReductionLimit(67, 50, 30000, [896, 946, 1000], 400000, 508353), // B = C: the next
    ReductionLimit(67, 50, 30000, [896, 946, 1000], 400000, 508354), // C a penny more
    ReductionLimit(67, 50, 30000, [896, 946, 1000], 400000, 460911), // B = C at the second, and the third is the pension age: no scope
    ReductionLimit(67, 50, 30000, [896, 946, 1000], 400000, 460912), // C a penny more at the second
    ReductionLimit(67, 50, 30000, [896, 946, 1000], 400000, 399999), // the limit is below existing pension: no scope
    ReductionLimit(67, 50, 30000, [1000, 1000, 1000], 400000, 400000), // B and C are 0: no scope
    ReductionLimit(67, 50, 30000, [1000, 1000, 1000], 400000, 400001), // B is 0, C a penny
    ReductionLimit(68, 35, 70000, [1000, 1000, 1000], 1, 0), // C is below zero three times: no scope
    ReductionLimit(68, 35, 70000, [850, 896, 946], 200000, 863051), // B = C at the second: the third
    ReductionLimit(68, 35, 70000, [850, 896, 946], 200000, 863052), // C a penny more at the second
    ReductionLimit(68, 35, 70000, [850, 896, 946], 200000, 560713), // B = C at the third: no scope
    ReductionLimit(68, 35, 70000, [850, 896, 946], 200000, 560714), // C a penny more at the third
    ReductionLimit(66, 50, 30000, [896, 946, 1000], 400000, 508353), // B = C, and the second is the pension age: no scope
    ReductionLimit(66, 50, 30000, [896, 946, 1000], 400000, 508354), // C a penny more
    ReductionLimit(69, 50, 30000, [850, 896, 946], 400000, 692400), // the first candidate is 66
    ReductionLimit(70, 50, 30000, [850, 896, 946], 400000, 692400), // the first candidate is 67
    ReductionLimit(66, 64, 162, [0, 0, 0], 0, 0), // 304.5 pence: up, where the even penny would be down
    ReductionLimit(66, 64, 54, [0, 0, 0], 0, 0), // 101.5 pence: up
    ReductionLimit(66, 64, 1, [1000, 1000, 1000], 0, 0), // the least years and pay
    ReductionLimit(70, 24, 200000, [0, 0, 0], 1, 0), // the most years and pay
];

// The same at both sides of each bound. A remark that starts with 18 names the refusal.
pub static RANGES: [Asked; 22] = [
    ReductionLimit(65, 50, 30000, [896, 946, 1000], 400000, 692400), // 18: pension age
    ReductionLimit(66, 50, 30000, [896, 946, 1000], 400000, 692400),
    ReductionLimit(70, 50, 30000, [896, 946, 1000], 400000, 692400),
    ReductionLimit(71, 50, 30000, [896, 946, 1000], 400000, 692400), // 18
    ReductionLimit(67, 23, 30000, [896, 946, 1000], 400000, 692400), // 18: age
    ReductionLimit(67, 24, 30000, [896, 946, 1000], 400000, 692400),
    ReductionLimit(67, 64, 30000, [896, 946, 1000], 400000, 692400),
    ReductionLimit(67, 65, 30000, [896, 946, 1000], 400000, 692400), // 18
    ReductionLimit(67, 50, 0, [896, 946, 1000], 400000, 692400), // 18: pay
    ReductionLimit(67, 50, 1, [896, 946, 1000], 400000, 692400),
    ReductionLimit(67, 50, 200000, [896, 946, 1000], 400000, 692400),
    ReductionLimit(67, 50, 200001, [896, 946, 1000], 400000, 692400), // 18
    ReductionLimit(67, 50, 30000, [1000, 1000, 1000], 400000, 692400), // all three factors at their most
    ReductionLimit(67, 50, 30000, [1001, 946, 1000], 400000, 692400), // 18: factors
    ReductionLimit(67, 50, 30000, [896, 1001, 1000], 400000, 692400), // 18, though the first candidate would be taken
    ReductionLimit(67, 50, 30000, [896, 946, 1001], 400000, 692400), // 18, though the third is the pension age
    ReductionLimit(67, 50, 30000, [896, 946, 1000], 100000000, 692400), // the most existing pension
    ReductionLimit(67, 50, 30000, [896, 946, 1000], 100000001, 692400), // 18: existing pension
    ReductionLimit(67, 50, 30000, [896, 946, 1000], 400000, 100000000), // the highest limit
    ReductionLimit(67, 50, 30000, [896, 946, 1000], 400000, 100000001), // 18: limit
    ReductionLimit(67, 50, 30000, [896, 946, 1000], 0, 100000001), // 18, though there is no existing pension
    ReductionLimit(
        4294967295,
        4294967295,
        4294967295,
        [4294967295, 4294967295, 4294967295],
        18446744073709551615,
        18446744073709551615,
    ), // 18
];
