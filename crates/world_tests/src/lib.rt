// A world of units, as the passes of several nexuses use it. The crate has tests alone.
#![tactic(auto)]

#[cfg(test)]
mod tests;
