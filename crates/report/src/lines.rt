ghost use Rattle.std.specs.Prelude.{◌≡◌, IfOk, string_bytes};
ghost use Rattle.report.specs.Lines.{line_said, sheet_said, nodes_said, ports_said, again_said};

use crate::shown_kinds::ShownKind;
use net::Line;
use std::alloc::{AllocError, Global};

// A line of a net: its place in the list, its ends and its label.
pub fn line_text<K: ShownKind>(
    heap: Global,
    index: usize,
    line: Line<K>,
) -> Result<String, AllocError>
    ensures { IfOk result (λ s. string_bytes s ≡ line_said K.ShownKind.shown index line) }
{
    let tail = line.tail;
    let head = line.head;
    let label = line.label;
    format!(in heap; "line {index}: {tail} -> {head}  {label}")
}

// How long a sheet is, and what its labels are called.
pub fn sheet_text<K: ShownKind>(heap: Global, bytes: usize) -> Result<String, AllocError>
    ensures { IfOk result (λ s. string_bytes s ≡ sheet_said K.ShownKind.name bytes) }
{
    let name = K::name();
    format!(in heap; "sheet: {bytes} bytes, {name}")
}

// How many nodes a net has.
pub fn nodes_text(heap: Global, nodes: u32) -> Result<String, AllocError>
    ensures { IfOk result (λ s. string_bytes s ≡ nodes_said nodes) }
{
    format!(in heap; "nodes: {nodes}")
}

// How many ports a node has.
pub fn ports_text(heap: Global, node: u32, ports: usize) -> Result<String, AllocError>
    ensures { IfOk result (λ s. string_bytes s ≡ ports_said node ports) }
{
    format!(in heap; "node {node}: {ports} ports")
}

// How long the sheet is that was written again, and whether it is the same as before: a yes or no, and both are said.
pub fn again_text(heap: Global, length: usize, same: bool) -> Result<String, AllocError>
    ensures { IfOk result (λ s. string_bytes s ≡ again_said length same) }
{
    if same {
        format!(in heap; "written again: {length} bytes, the same")
    } else {
        format!(in heap; "written again: {length} bytes, not the same")
    }
}
