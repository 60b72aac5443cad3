/// A set of places: a row of bits of `W` words. Structs that hold a reference keep their sets so.
#[derive(Clone, Copy)]
pub struct PlaceSet<const W: usize> {
    pub words: [u64; W],
}
