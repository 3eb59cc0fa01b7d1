// Demand 3 over any service: definitions in specs/, theorems in proofs/, and no code. Two types are shared with code.
#![tactic(auto)]

// A command set that is collected: unreadable, or a request without or with a data set.
#[derive(Clone, Copy)]
pub enum Reading {
    NotReadable,
    Alone,
    WithData,
}

// What came as the data set of a request: none, all of it, or more than the message buffer holds.
#[derive(Clone, Copy)]
pub enum Came {
    Absent,
    Whole,
    TooLong,
}
