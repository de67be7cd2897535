// The live sets of a sheet as text. Assumes nothing.
ghost use Rattle.std.specs.Prelude.{◌≡◌, length};
ghost use Rattle.base.specs.Bytes.{number};
ghost use Rattle.base.specs.Sizes.{set_bytes, pair_bytes};
ghost use Rattle.livevar_analysis.specs.Analysis.{info_in};
ghost use Rattle.listing.specs.Writer.{◌with_text◌};
ghost use Rattle.pages.specs.Page.{set_text, live_line};

use base::SET_BYTES;
use listing::text::LiveLine;
use listing::writer::Writer;
use pages::code::put_locals;

// The set in bytes p: in hex, and its locals.
#[tactic(auto, using(listing::specs::WriterLaws::texts), unfolding(pages::specs::Page::set_text))]
fn put_set_text(p: &[u8], out: &mut Writer)
    requires { length p.now ≡ set_bytes }
    ensures { out.new ≡ out.old with_text set_text (number p.now) }
{
    out.put_set(p);
    put_locals(p, out);
}

// Both sets in hex, with their locals.
pub struct HexAndLocals;

impl LiveLine for HexAndLocals {
    ghost line = { live_line };

    #[tactic(auto, using(listing::specs::WriterLaws::texts), unfolding(pages::specs::Page::live_line, livevar_analysis::specs::Analysis::info_in))]
    fn put_line(k: u32, pair: &[u8], out: &mut Writer) {
        let (before, after) = pair.split_at(SET_BYTES);
        out.put_decimal(k);
        out.put(b": before");
        put_set_text(before, out);
        out.put(b", after");
        put_set_text(after, out);
        out.put(b"\n");
    }
}
