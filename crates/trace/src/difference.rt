// What differs between two traces, and what is said of the comparison.
use crate::field::Field;

// One difference of two traces, at a position counted in fields: a field only in the first, only in
// the second, or one tag with other contents.
#[derive(Clone, Copy)]
pub enum Difference {
    OnlyFirst {
        at: u64,
        field: Field,
    },
    OnlySecond {
        at: u64,
        field: Field,
    },
    Other {
        at: u64,
        first: Field,
        second: Field,
    },
}

// A field as its tag and three numbers, 0 where it has fewer.
#[derive(Clone, Copy, PartialEq, Eq)]
pub struct Contents {
    pub tag: u8,
    pub a: u32,
    pub b: u32,
    pub c: u32,
}

// A row of the list of differences: position 8, kind 1, tag 1, three numbers of the first trace's
// field and three of the second's, 4 each.
#[derive(Clone, Copy)]
pub struct Row {
    pub position: u64,
    pub kind: u8,
    pub tag: u8,
    pub a: u32,
    pub b: u32,
    pub c: u32,
    pub x: u32,
    pub y: u32,
    pub z: u32,
}

// What differs at one position. Two Options would also say a second without a first.
#[derive(Clone, Copy)]
pub enum Gap {
    Same,
    One { d: Difference },
    Two { d: Difference, e: Difference },
}

// Why two traces are not compared: which of them is none and where, or the list is too short.
#[derive(Clone, Copy)]
pub enum CompareError {
    BadFirst { at: usize },
    BadSecond { at: usize },
    ListFull,
}
