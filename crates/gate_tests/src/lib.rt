// One unit under turns, as its callers have acts done. The crate has tests alone.
#![tactic(auto)]

#[cfg(test)]
mod tests;
