ghost use Rattle.std.specs.Prelude.{◌≤◌};

// A net that is being drawn. Its lines are the first `lines` records of the list that it was opened with,
// which is lent at each call and had `room` records then.
#[derive(Drop)]
pub struct Draft {
    pub(crate) nodes: u32,
    pub(crate) lines: usize,
    pub(crate) room: usize,
    ghost some_nodes: { 1 ≤ nodes },
    ghost few_nodes: { nodes ≤ 24 },
    ghost in_room: { lines ≤ room },
    ghost few_lines: { lines ≤ 96 },
}
