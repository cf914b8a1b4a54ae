//! Accounts: what one place did. Only contracts and the desk's rule use them; the program makes no value of them.

use std::collections::LinkedList;

/// In one class: the numbers told and the numbers seen, in the order of the calls.
pub struct Numbers {
    pub told: LinkedList<u64>,
    pub seen: LinkedList<u64>,
}

/// The tickets that a seat took, its numbers in each class, and how many places it stands for.
pub struct Account {
    pub tickets: LinkedList<u64>,
    pub met: Numbers,
    pub unmet: Numbers,
    pub places: u64,
}
