ghost use Rattle.std.specs.Prelude.{◌≡◌, ◌≤◌, true, List, ◌++◌, length, take, IfOk, string_bytes, OnOk};
ghost use Rattle.mesh.specs.Ports.{ports};
ghost use Rattle.net.specs.Model.{net_of};
ghost use Rattle.net.specs.declared.records.Line.{Line};
ghost use Rattle.sheet.specs.Clauses.{WasRead};
ghost use Rattle.report.specs.Lines.{again_said};
ghost use Rattle.report.specs.Shown.{next_line, lines_said, nodes_ports, net_said, Says};

use crate::lines::{again_text, line_text, nodes_text, ports_text, sheet_text};
use crate::shown::NotShown;
use crate::shown_kinds::ShownKind;
use net::{Draft, Line};
use sheet::{read, write};
use std::alloc::{AllocError, Global};

// A line more at the end of the text.
fn push_line(text: &mut String, line: &str) -> Result<(), AllocError>
    ensures { OnOk result (string_bytes text.new ≡ string_bytes text.old ++ next_line line.now) }
{
    write!(text, "\n{line}")
}

// A net that was read from a sheet: its draft, over the list with its lines. What is said of it stands in the heap.
#[derive(Drop)]
struct ReadNet<'a, K> {
    heap: Global,
    bytes: &'a [u8],
    draft: &'a Draft,
    list: &'a [Line<K>],
    ghost lent: { length list.now ≡ draft.now.room },
}

impl<'a, K: ShownKind> ReadNet<'a, K> {
    // The lines, in the order of the list.
    fn push_lines(&self, text: &mut String) -> Result<(), AllocError>
        ensures { OnOk result (string_bytes text.new ≡ string_bytes text.old ++ lines_said K.ShownKind.shown 0 (take self.now.draft.now.lines self.now.list.now)) }
    {
        let Ok(lines) = self.draft.drawn(self.list) else {
            unreachable!()
        };
        for (i, line) in lines.iter().enumerate() {
            push_line(text, line_text(self.heap, i, *line)?.as_str())?;
        }
        Ok(())
    }

    // How many ports each node has.
    fn push_ports(&self, text: &mut String) -> Result<(), AllocError>
        ensures { OnOk result (string_bytes text.new ≡ string_bytes text.old ++ nodes_ports (λ u. length (ports K.Label.group (net_of K.Label.stands self.now.draft.now self.now.list.now) u)) self.now.draft.now.nodes) }
    {
        // nodes are numbers: there is no item to go over
        for node in 0..self.draft.nodes() {
            match self.draft.ports(self.list, node) {
                Ok(ports) => push_line(text, ports_text(self.heap, node, ports)?.as_str())?,
                Err(_) => unreachable!(),
            }
        }
        Ok(())
    }

    // What is said of the net written again: into an output as long as the sheet it gives the same bytes.
    fn again(&self) -> Result<String, AllocError>
        requires { (before : List (Line K)) × WasRead K.Label.group K.Label.form K.Label.stands K.SheetKind.KIND self.now.bytes.now before self.now.draft.now self.now.list.now }
        ensures { IfOk result (λ s. string_bytes s ≡ again_said (length self.now.bytes.now) true) }
    {
        let mut out = vec![in self.heap; 0u8; self.bytes.len()]?;
        match write(self.draft, self.list, out.as_mut_slice()) {
            Ok(length) => again_text(self.heap, length, out.as_slice() == self.bytes),
            Err(refusal) => refusal.to_string(self.heap),
        }
    }

    // All that is said of the net.
    fn text(&self) -> Result<String, AllocError>
        requires { (before : List (Line K)) × WasRead K.Label.group K.Label.form K.Label.stands K.SheetKind.KIND self.now.bytes.now before self.now.draft.now self.now.list.now }
        ensures { IfOk result (λ s. string_bytes s ≡ net_said K.Label.group K.Label.form K.Label.stands K.SheetKind.KIND K.ShownKind.name K.ShownKind.shown self.now.bytes.now self.now.draft.now self.now.list.now) }
    {
        let mut text = sheet_text::<K>(self.heap, self.bytes.len())?;
        push_line(
            &mut text,
            nodes_text(self.heap, self.draft.nodes())?.as_str(),
        )?;
        self.push_lines(&mut text)?;
        self.push_ports(&mut text)?;
        push_line(&mut text, self.again()?.as_str())?;
        Ok(text)
    }
}

// Reads the sheet as one of the kind, into the list, and says what is in it or why it is refused.
pub fn show<K: ShownKind>(
    heap: Global,
    bytes: &[u8],
    list: &mut [Line<K>],
) -> Result<String, NotShown>
    ensures { Says K.Label.group K.Label.form K.Label.stands K.SheetKind.KIND K.ShownKind.name K.ShownKind.shown bytes.now list.old result list.new }
{
    let draft = read(bytes, list)?;
    let net = ReadNet {
        heap,
        bytes,
        draft: &draft,
        list,
    };
    Ok(net.text()?)
}
