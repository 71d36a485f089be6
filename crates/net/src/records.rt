// A record of a line list: a line from the node `tail` to the node `head`, with its label.
#[derive(Clone, Copy)]
pub struct Line<L> {
    pub tail: u32,
    pub head: u32,
    pub label: L,
}
