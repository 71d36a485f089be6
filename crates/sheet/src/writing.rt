ghost use Rattle.std.specs.Prelude.{◌≡◌, ◌+◌, ◌*◌, ◌≤◌, ◌++◌, true, map, length, drop, slice_index};
ghost use Rattle.net.specs.Model.{line_of};
ghost use Rattle.sheet.specs.Sheet.{label_codes, line_numbers, all_written};
ghost use Rattle.sheet.specs.Stored.{stored};
ghost use Rattle.sheet.specs.Writing.{numbers_of, sheet_of};
ghost use Rattle.sheet.specs.Clauses.{WriteSheet};

use crate::codes::coded;
use crate::kinds::SheetKind;
use crate::lengths::stored_length;
use crate::refusals::WriteRefusal;
use label::Label;
use net::{Draft, Line};

// Writes the number at the front of the output, and says how many bytes that took.
fn put(out: &mut [u8], n: u32) -> usize
    requires { length (stored n) ≤ length out.old }
    ensures long { result ≡ length (stored n) }
    ensures bytes { out.new ≡ stored n ++ drop (length (stored n)) out.old }
{
    if n < 128 {
        out[0] = n as u8;
        return 1;
    }
    out[0] = (128 + n % 128) as u8;
    let rest = n / 128;
    if rest < 128 {
        out[1] = rest as u8;
        return 2;
    }
    out[1] = (128 + rest % 128) as u8;
    out[2] = (rest / 128 % 128) as u8;
    3
}

// The number at a place of the label's written form, as it is stored; 0 where there is none.
fn label_number<L: Label>(label: L, at: usize) -> u32
    ensures { result ≡ slice_index (label_codes L.Label.form (L.Label.stands label)) at }
{
    match (L::slot(at), label.written(at)) {
        (Some(slot), Ok(Some(n))) => coded(slot.storage, n),
        _ => 0,
    }
}

// The number at a place of the line: its tail, its head, or one of its label's. By place, as the numbers of the sheet are.
fn line_number<L: Label>(line: Line<L>, at: usize) -> u32
    ensures { result ≡ slice_index (line_numbers L.Label.form (line_of L.Label.stands line)) at }
{
    match at {
        0 => line.tail,
        1 => line.head,
        _ => label_number(line.label, at - 2),
    }
}

// Whether every label of the lines has a written form.
fn all_written<L: Label>(lines: &[Line<L>]) -> bool
    ensures { result ≡ all_written L.Label.form (map (line_of L.Label.stands) lines.now) }
{
    lines.iter().all(|line| line.label.written(0).is_ok())
}

// A net whose sheet can be written: every label of its lines has a written form.
#[derive(Drop)]
struct Writer<'a, K: SheetKind> {
    nodes: u32,
    lines: &'a [Line<K>],
    ghost few: { length lines.now ≤ 96 },
    ghost written: { all_written K.Label.form (map (line_of K.Label.stands) lines.now) ≡ true },
}

impl<K: SheetKind> Writer<'_, K> {
    // How many numbers the sheet has: three of the heading, and of each line its ends and its label's.
    fn number_count(&self) -> usize
        ensures { result ≡ 3 + length self.now.lines.now * (2 + length K.Label.form.slots) }
    {
        3 + self.lines.len() * (2 + K::NUMBERS)
    }

    // The number at a place of the sheet: one of the heading, or one of a line; 0 past the end.
    // By its place, since `length` and `put` both go over the numbers: line by line, each would need the heading's three
    // by themselves, a loop over the lines, and one over a line's numbers.
    fn number(&self, at: usize) -> u32
        ensures { result ≡ slice_index (numbers_of K.Label.form K.Label.stands self.now.nodes self.now.lines.now K.SheetKind.KIND) at }
    {
        match at {
            0 => K::KIND,
            1 => self.nodes,
            2 => self.lines.len() as u32,
            _ => {
                let long = 2 + K::NUMBERS;
                match self.lines.get((at - 3) / long) {
                    Some(line) => line_number(*line, (at - 3) % long),
                    None => 0,
                }
            }
        }
    }

    // How many bytes the sheet takes.
    fn length(&self) -> usize
        ensures { result ≡ length (sheet_of K.Label.form K.Label.stands self.now.nodes self.now.lines.now K.SheetKind.KIND) }
    {
        (0..self.number_count())
            .map(|at| stored_length(self.number(at)))
            .sum()
    }

    // Writes the sheet at the front of the output, and says how many bytes that took.
    fn put(&self, out: &mut [u8]) -> usize
        requires { length (sheet_of K.Label.form K.Label.stands self.now.nodes self.now.lines.now K.SheetKind.KIND) ≤ length out.old }
        ensures long { result ≡ length (sheet_of K.Label.form K.Label.stands self.now.nodes self.now.lines.now K.SheetKind.KIND) }
        ensures bytes { out.new ≡ sheet_of K.Label.form K.Label.stands self.now.nodes self.now.lines.now K.SheetKind.KIND ++ drop result out.old }
    {
        let mut end = 0;
        // each number is written into what is left of the output
        for at in 0..self.number_count() {
            end += put(&mut out[end..], self.number(at));
        }
        end
    }
}

// Writes the sheet of the draft's net at the front of the output, and says how many bytes it takes.
// A refusal leaves the output as it was.
pub fn write<K: SheetKind>(
    draft: &Draft,
    list: &[Line<K>],
    out: &mut [u8],
) -> Result<usize, WriteRefusal>
    ensures { WriteSheet K.Label.group K.Label.form K.Label.stands K.SheetKind.KIND draft.now list.now out.old result out.new }
{
    let Ok(lines) = draft.drawn(list) else {
        return Err(WriteRefusal::OtherLength);
    };
    if !all_written(lines) {
        return Err(WriteRefusal::NoWrittenForm);
    }
    let writer = Writer {
        nodes: draft.nodes(),
        lines,
    };
    if out.len() < writer.length() {
        return Err(WriteRefusal::OutputShort);
    }
    Ok(writer.put(out))
}
