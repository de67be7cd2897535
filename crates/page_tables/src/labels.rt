// The Labels that nobody names as text: each that is named gets a mark, and the others make a line. Assumes nothing.
ghost use Rattle.std.specs.Prelude.{◌≡◌, ◌++◌, codes, eqb, length};
ghost use Rattle.sheet.specs.Code.{code_in};
ghost use Rattle.listing.specs.Writer.{◌with_text◌};
ghost use Rattle.pages.specs.Page.{unnamed_labels, unnamed_line};
ghost use Rattle.pages.specs.Marks.{NamedMarks, is_unmarked};

use base::MAX_INSTRUCTIONS;
use listing::writer::Writer;
use sheet::accepted::ResolvedSheet;
use stackless_bytecode::{Bytecode, Kind};

// A mark at each Label that is named, slot by slot.
fn mark_named(sheet: ResolvedSheet<'_>) -> [bool; MAX_INSTRUCTIONS]
    ensures { NamedMarks (code_in sheet.entry) result }
{
    let mut marks = [false; MAX_INSTRUCTIONS];
    for e in 0..2 * sheet.count {
        if sheet.instruction(e / 2).name(e % 2).is_some() {
            marks[usize::from(sheet.targets[e])] = true;
        }
    }
    marks
}

// Whether it is a Label that has no mark.
#[tactic(auto, unfolding(pages::specs::Marks::is_unmarked))]
fn is_unmarked(r: Bytecode, mark: bool) -> bool
    ensures { result ≡ is_unmarked r mark }
{
    r.is(Kind::Label) && !mark
}

// Whether every Label is named. A `for`: with `all` the proof did not close.
#[tactic(auto, using(pages::specs::UnnamedLaws::unnamed_none))]
fn all_named(sheet: ResolvedSheet<'_>, marks: &[bool; MAX_INSTRUCTIONS]) -> bool
    requires { NamedMarks (code_in sheet) marks.now }
    ensures { result ≡ eqb (length (unnamed_labels (code_in sheet.entry))) 0 }
{
    for k in 0..sheet.count {
        if is_unmarked(sheet.instruction(k), marks[k]) {
            return false;
        }
    }
    true
}

// The line of the Labels that nobody names, by offset.
#[tactic(auto, using(listing::specs::WriterLaws::texts, pages::specs::UnnamedLaws::unnamed_none))]
fn put_labels(sheet: ResolvedSheet<'_>, marks: &[bool; MAX_INSTRUCTIONS], out: &mut Writer)
    requires { NamedMarks (code_in sheet) marks.now }
    ensures { out.new ≡ out.old with_text (codes "never named" ++ unnamed_labels (code_in sheet.entry) ++ codes "\n") }
{
    out.put(b"never named");
    for k in 0..sheet.count {
        let r = sheet.instruction(k);
        if is_unmarked(r, marks[k]) {
            out.put_number(b" L", u32::from(r.one));
        }
    }
    out.put(b"\n");
}

// Their line, and nothing where there are none.
#[tactic(auto, using(listing::specs::WriterLaws::texts), unfolding(pages::specs::Page::unnamed_line))]
pub fn put_unnamed(sheet: ResolvedSheet<'_>, out: &mut Writer)
    ensures { out.new ≡ out.old with_text unnamed_line (code_in sheet.entry) }
{
    let marks = mark_named(sheet);
    if !all_named(sheet, &marks) {
        put_labels(sheet, &marks, out);
    }
}
