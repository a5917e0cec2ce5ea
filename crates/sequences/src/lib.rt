#![tactic(auto)]

// Sequences of sheets and what they cost: definitions and theorems.
