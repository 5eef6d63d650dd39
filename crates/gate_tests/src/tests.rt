mod machine;
mod resuming;
mod turns;
