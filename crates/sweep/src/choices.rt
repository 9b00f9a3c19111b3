// The choices among a few things, by number: each bit of the number stands for one of the things.

pub(crate) fn choices_among(things: usize) -> u32 {
    u32::try_from(things).map_or(u32::MAX, |things| 2u32.saturating_pow(things))
}

// Whether a choice takes the thing at a place. A choice is a number that is counted up, and no set of nodes.
pub(crate) fn takes(choice: u32, place: usize) -> bool {
    place < 32 && (choice >> place) & 1 == 1
}
