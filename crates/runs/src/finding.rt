// What an evaluation finds at a sample.
#[derive(Clone, Copy, Debug, PartialEq, Eq)]
pub enum Finding {
    // The limit allows the value.
    Keeps,
    // It allows less, though no less than the floor: the value falls to this rank.
    Lowers(u32),
    // It allows nothing from the floor up.
    Clashes,
}
