// What a search gives.
use limits::MOST_PARTIES;

// A path: its parties as a mask, and in order from place 0.
// Kept: no length stands beside the parties, since the ones of `visited` are their number, which is 01's form.
#[derive(Clone, Copy, Debug)]
pub struct Path {
    pub visited: u32,
    pub parties: [u8; MOST_PARTIES],
}

// There is no path; `tried` says how many parties the search entered, short of the last three places.
#[derive(Clone, Copy, Debug)]
pub struct NoPath {
    pub tried: u32,
}
