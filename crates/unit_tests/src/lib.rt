// What a unit and the plain model answer to acts in turn, and whether both answer random histories alike. The crate has
// tests alone.
#![tactic(auto)]

#[cfg(test)]
mod tests;
