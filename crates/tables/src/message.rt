// A message of an election: which wave it belongs to, its way, its kind, and the holding that it carries.
#[derive(Clone, Copy, Default)]
pub struct Message<T> {
    // the wave, by its starter
    pub starter: u8,
    pub sender: u8,
    pub receiver: u8,
    // The number of a `Kind`, if it is a message of some run. A plain number, since whatever lies in the transit is
    // ordinary input, and is refused where it is none.
    pub kind: u8,
    pub holding: T,
}
