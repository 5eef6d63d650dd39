// What is read and written as bytes: commands, parameter lists, tokens, reservations, and what is returned of them. The
// crate has tests alone.
#![tactic(auto)]

#[cfg(test)]
mod tests;
