/// Where the generator stands.
#[derive(Clone, Copy, Debug, PartialEq, Eq)]
pub struct MakeState {
    /// The number that the next draw is made from, below 2,147,483,648. At first it is what the script starts from.
    pub x: u32,
    /// How many lines so far were forks, at most 6.
    pub forks: u32,
}
