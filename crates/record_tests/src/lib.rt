// Entries that are recorded: in a sink, in memory, and in a journal on a disk in memory. The crate has tests alone.
#![tactic(auto)]

#[cfg(test)]
mod tests;
