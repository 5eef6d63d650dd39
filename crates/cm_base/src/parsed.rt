/// What was found at the front of some bytes.
#[derive(Drop)]
pub enum Parsed<T> {
    /// A value, and the number of bytes that spell it.
    Whole { value: T, used: usize },
    /// Too few bytes to tell.
    Short,
    /// A fault, at this place from the first byte given.
    Bad { place: u64 },
}
