use net::{Draft, Line};
use survey::{Junction, Survey};

// A net between two calls: it is drawn, or it is surveyed. No Result: neither is a failure.
#[derive(Drop)]
pub enum State {
    Drafting(Draft),
    Surveying(Survey),
}

// A call on a net. A draft takes the first three, a survey the others.
// Lists of calls are what the theorems range over, so a call is a value, and no closure.
#[derive(Clone, Copy)]
pub enum Call<L> {
    Line(Line<L>),
    TakeBack,
    Seal,
    Grow,
    Count {
        node: u32,
        shell: u32,
    },
    // the member with so many others before it
    Member {
        node: u32,
        shell: u32,
        before: u32,
    },
    Next {
        node: u32,
        shell: u32,
        floor: Junction<L>,
    },
    Distance {
        node: u32,
        to: Junction<L>,
    },
    Reopen,
}
