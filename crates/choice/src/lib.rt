// Choices: definitions alone, in specs/. A row of a table is the one type that code shares with them.
#![tactic(auto)]

// A key, and what the table has for it. In eight bytes, for of a constant table of such rows the compiler makes
// tests alone; of wider ones it lays the table out in every call.
#[derive(Clone, Copy)]
pub struct Row(pub u32, pub u32);
