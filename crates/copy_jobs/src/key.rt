/// What an operation is known by: the number of the nexus that began it, whether it is a copy or of a
/// token, and the list identifier. A copy and a token operation of one identifier are two.
#[derive(Drop, Clone, Copy, PartialEq, Eq, Hash)]
pub struct Key {
    pub actor: u32,
    pub copy: bool,
    pub id: u32,
}
