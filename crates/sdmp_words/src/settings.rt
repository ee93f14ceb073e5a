/// What the words set: the number of workers, from 1 to 64, the places of a ring and of a published row, from 2 to 65536, and the seed of the demo, where one is wanted.
#[derive(Clone, Copy, Debug, PartialEq, Eq)]
pub struct Settings {
    pub workers: u32,
    pub places: u32,
    pub demo: Option<u64>,
}
