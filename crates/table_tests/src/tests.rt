mod blocks;
mod lists;
mod model;
mod operations;
mod ranges;
mod table_steps;
