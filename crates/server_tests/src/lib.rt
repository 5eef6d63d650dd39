// Serving, over links in memory, refused and stored. The crate has tests alone.
#![tactic(auto)]

#[cfg(test)]
mod tests;
