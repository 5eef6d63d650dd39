// Worlds that go on with the journals of disks in memory. The crate has tests alone.
#![tactic(auto)]

#[cfg(test)]
mod journals;
#[cfg(test)]
mod worlds;
