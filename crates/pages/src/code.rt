// A sheet's code as text: its heading, and a line for each instruction. Assumes nothing.
ghost use Rattle.std.specs.Prelude.{◌≡◌, ◌<◌, ◌≤◌, length};
ghost use Rattle.base.specs.Bytes.{number};
ghost use Rattle.base.specs.Sizes.{set_bytes, block_bytes};
ghost use Rattle.listing.specs.Writer.{◌with_text◌};
ghost use Rattle.pages.specs.Code.{destinations, labels, sources, aborting, does, takes, code_line, locals_in, counts, heading_text, code_text};

use crate::names::{name, verb};
use crate::words::{put_first, put_mark};
use base::{MAX_LOCALS, REFS_AT, REFS_END};
use dataflow_domains::LiveVarState;
use listing::writer::Writer;
use sheet::accepted::AcceptedSheet;
use sheet::reader::{locals_of, parameters_of, user_locals_of};
use stackless_bytecode::{Bytecode, Kind};

#[tactic(auto, using(listing::specs::WriterLaws::texts), unfolding(crate::specs::Code::destinations, stackless_bytecode::specs::Kinds::dsts_of))]
fn put_destinations(r: Bytecode, out: &mut Writer)
    ensures { out.new ≡ out.old with_text destinations r }
{
    put_first(b"t", b" ", &r.dsts, usize::from(r.ndst), out);
    if r.ndst != 0 {
        out.put(b"<- ");
    }
}

#[tactic(auto, using(listing::specs::WriterLaws::texts), unfolding(crate::specs::Code::labels, crate::specs::Code::branch_labels))]
fn put_labels(r: Bytecode, out: &mut Writer)
    ensures { out.new ≡ out.old with_text labels r }
{
    if r.is(Kind::Branch) {
        out.put_number(b" L", u32::from(r.one));
        out.put_number(b" L", u32::from(r.two));
        out.put(b" on");
    } else if r.is(Kind::Jump) || r.is(Kind::Label) {
        out.put_number(b" L", u32::from(r.one));
    }
}

#[tactic(auto, unfolding(crate::specs::Code::sources, stackless_bytecode::specs::Kinds::srcs_of))]
fn put_sources(r: Bytecode, out: &mut Writer)
    ensures { out.new ≡ out.old with_text sources r }
{
    put_first(b" t", b"", &r.srcs, usize::from(r.nsrc), out);
}

#[tactic(auto, using(listing::specs::WriterLaws::texts), unfolding(crate::specs::Code::aborting))]
fn put_aborting(r: Bytecode, out: &mut Writer)
    ensures { out.new ≡ out.old with_text aborting r }
{
    if r.flag == 1 {
        out.put_number(b" abort L", u32::from(r.one));
        out.put_number(b" into t", u32::from(r.abort));
    }
}

#[tactic(auto, using(listing::specs::WriterLaws::texts), unfolding(crate::specs::Code::does))]
fn put_does(r: Bytecode, out: &mut Writer)
    ensures { out.new ≡ out.old with_text does r }
{
    put_destinations(r, out);
    out.put(verb(r.kind));
    out.put(name(r));
    put_labels(r, out);
}

#[tactic(auto, using(listing::specs::WriterLaws::texts), unfolding(crate::specs::Code::takes))]
fn put_takes(r: Bytecode, out: &mut Writer)
    ensures { out.new ≡ out.old with_text takes r }
{
    put_sources(r, out);
    put_aborting(r, out);
    put_mark(b" #", r.payload, out);
    put_mark(b" @", u32::from(r.attr), out);
}

// The line of the instruction at offset k.
#[tactic(auto, using(listing::specs::WriterLaws::texts), unfolding(crate::specs::Code::code_line))]
fn put_code_line(k: u32, r: Bytecode, out: &mut Writer)
    ensures { out.new ≡ out.old with_text code_line k r }
{
    out.put_decimal(k);
    out.put(b": ");
    put_does(r, out);
    put_takes(r, out);
    out.put(b"\n");
}

// The locals of the set in bytes p.
#[tactic(auto, using(listing::specs::WriterLaws::texts, crate::specs::CodeLaws::local_steps))]
pub fn put_locals(p: &[u8], out: &mut Writer)
    requires { length p.now ≡ set_bytes }
    ensures { out.new ≡ out.old with_text locals_in (number p.now) }
{
    let set = LiveVarState::load_bytes(p);
    for i in 0..MAX_LOCALS as u8 {
        if set.has(i) {
            out.put_number(b" t", u32::from(i));
        }
    }
}

#[tactic(auto, using(listing::specs::WriterLaws::texts), unfolding(crate::specs::Code::counts))]
fn put_counts(s: &[u8], out: &mut Writer)
    requires { 11 < length s.now }
    ensures { out.new ≡ out.old with_text counts s.now }
{
    out.put_number(b"locals ", u32::from(locals_of(s)));
    out.put_number(b" user ", u32::from(user_locals_of(s)));
    out.put_number(b" parameters ", u32::from(parameters_of(s)));
    out.put(b" references");
}

#[tactic(auto, using(listing::specs::WriterLaws::texts), unfolding(crate::specs::Code::heading_text, sheet::specs::Layout::refs_of))]
fn put_heading(s: &[u8], out: &mut Writer)
    requires { block_bytes ≤ length s.now }
    ensures { out.new ≡ out.old with_text heading_text s.now }
{
    put_counts(s, out);
    put_locals(&s[REFS_AT..REFS_END], out);
    out.put(b"\n");
}

// The heading, and a line for each instruction.
#[tactic(auto, using(listing::specs::WriterLaws::texts, crate::specs::CodeLaws::line_steps, crate::specs::CodeLaws::heading_there))]
pub fn put_code(sheet: AcceptedSheet<'_>, out: &mut Writer)
    ensures { out.new ≡ out.old with_text code_text sheet.entry.bytes.now }
{
    put_heading(sheet.bytes, out);
    for k in 0..sheet.count {
        put_code_line(k as u32, sheet.instruction(k), out);
    }
}
