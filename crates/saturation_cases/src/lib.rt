//! Tests of saturation: what its calls answer with ample memory over a history without events, and over one with a fractured read, whose
//! forced pairs have a cycle. No clause promises this. Other histories with events are tested in `axiom_cases`, which compares the offers of
//! a store with saturation's.
#![tactic(auto)]

#[cfg(test)]
mod cycles;
#[cfg(test)]
mod tests;
