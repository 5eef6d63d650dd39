/// How long a world is served (own profile).
#[derive(Clone, Copy)]
pub enum Term {
    /// Until as many connections as were asked for have come and ended. Links are given back in the order of accepting.
    Counted,
    /// Until it is asked to end. Each link is given back when its session has ended.
    Open,
}
