// answerbook: reads a sheet on standard input, and prints its page: code, blocks, live sets and rewritten code, or the refusal.
// It prints section by section, so that it needs room for one of them and not for the page.
#![tactic(auto)]

ghost use Rattle.std.specs.Prelude.{◌≡◌, ◌≤◌, length};

use base::{LIVE_BYTES, READ_BYTES, SLOTS};
use listing::writer::Writer;
use live::analysis::analyze;
use livevar_transform::plan::LiveSheet;
use page::page::SECTION_BYTES;
use page::sections::{put_code_section, put_flow_section, put_live_section, put_rewritten_section};
use sheet::accepted::ResolvedSheet;
use sheet_checks::check::read;
use std::io;
use streams::read_input;

// Prints what is written, and clears it.
#[tactic(auto, using(listing::specs::WriterLaws::text_inside))]
fn show(rt: &impl Print, out: &mut Writer) -> io::Result<()>
    requires { out.old.next ≤ length out.old.bytes.now }
    ensures { out.new ≡ record out.old { next = 0 } }
{
    let shown = rt.write_all(out.written());
    out.clear();
    shown
}

// Prints the sections of a sheet, as far as they can be printed; `text` has room for each.
#[tactic(auto, using(listing::specs::WriterLaws::text_inside))]
fn print_sections(rt: &impl Print, sheet: ResolvedSheet<'_>, text: &mut [u8]) -> io::Result<()> {
    let mut sets = [0u8; LIVE_BYTES];
    let taken = analyze(sheet, &mut sets);
    let mut out = Writer::new(text);
    put_code_section(sheet.accepted(), &mut out);
    show(rt, &mut out)?;
    put_flow_section(sheet, &mut out);
    show(rt, &mut out)?;
    put_live_section(&sets, sheet.count, taken, &mut out);
    show(rt, &mut out)?;
    put_rewritten_section(LiveSheet { sheet, info: &sets }, &mut out);
    show(rt, &mut out)
}

// Prints the page of any bytes; `text` has room for the longest section.
fn print_page(rt: &impl Print, s: &[u8], text: &mut [u8]) -> io::Result<()> {
    let mut targets = [0u16; SLOTS];
    match read(s, &mut targets) {
        Ok(sheet) => print_sections(rt, sheet, text),
        Err(refusal) => rt.println(refusal),
    }
}

fn print<R: Print + Eprint>(rt: &R, s: &[u8]) {
    let mut text = [0u8; SECTION_BYTES];
    if print_page(rt, s, &mut text).is_err() {
        let _ = rt.eprint("answerbook: standard output cannot be written\n");
    }
}

fn main(rt: HostRuntime) {
    let mut sheet = [0u8; READ_BYTES];
    match read_input(&mut rt.stdin(), &mut sheet) {
        Ok(n) => print(&rt, &sheet[..n]),
        Err(_) => {
            let _ = rt.eprint("answerbook: standard input cannot be read\n");
        }
    }
}
