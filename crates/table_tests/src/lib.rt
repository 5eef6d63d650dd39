// The blocks, versions, operations and tokens of a unit, and what the model says of them. The crate has tests alone.
#![tactic(auto)]

#[cfg(test)]
mod tests;
