// The text of livelist: a line for each instruction and the count, or the refusal. Assumes nothing.
ghost use Rattle.std.specs.Prelude.{◌≡◌, ℕ, ◌++◌, ◌*◌, ◌≤◌, List, length, codes};
ghost use Rattle.base.specs.Bytes.{number};
ghost use Rattle.base.specs.Sizes.{set_bytes, pair_bytes, max_instructions};
ghost use Rattle.livevar_analysis.specs.Analysis.{LiveVarInfo, info_in, infos_of};
ghost use Rattle.listing.specs.Lines.{line, text_of, refused_numbers, refused_text};
ghost use Rattle.listing.specs.Writer.{◌with_text◌};

use crate::writer::Writer;
use base::{PAIR_BYTES, Refusal, SET_BYTES};

// A line of the live sets.
pub trait LiveLine {
    ghost line: { ℕ → LiveVarInfo → List ℕ };

    // Of the instruction at offset k, whose sets are in `pair`.
    fn put_line(k: u32, pair: &[u8], out: &mut Writer)
        requires { length pair.now ≡ pair_bytes }
        ensures { out.new ≡ out.old with_text line k (info_in pair.now) };
}

// Offset, before and after.
pub struct Hex;

impl LiveLine for Hex {
    ghost line = { line };

    #[tactic(auto, using(crate::specs::WriterLaws::texts), unfolding(crate::specs::Lines::line, livevar_analysis::specs::Analysis::info_in))]
    fn put_line(k: u32, pair: &[u8], out: &mut Writer) {
        let (before, after) = pair.split_at(SET_BYTES);
        out.put_decimal(k);
        out.put_set(before);
        out.put_set(after);
        out.put(b"\n");
    }
}

// The text of an accepted sheet, from the bytes of the sets of its n instructions and the count of blocks taken.
#[tactic(auto, using(crate::specs::WriterLaws::texts, crate::specs::TextLaws::line_steps), unfolding(crate::specs::Lines::text_of))]
pub fn put_live<L: LiveLine>(sets: &[u8], n: usize, taken: u32, out: &mut Writer)
    requires few { n ≤ max_instructions }
    requires enough { pair_bytes * n ≤ length sets.now }
    ensures { out.new ≡ out.old with_text text_of L.line (infos_of n sets.now) taken }
{
    for (k, pair) in sets.chunks_exact(PAIR_BYTES).take(n).enumerate() {
        L::put_line(k as u32, pair, out);
    }
    out.put_number(b"taken ", taken);
    out.put(b"\n");
}

// The line of a refused one, of any two numbers.
#[tactic(auto, using(crate::specs::WriterLaws::texts), unfolding(crate::specs::Lines::refused_numbers))]
pub fn put_refused_numbers(number: u32, place: u32, out: &mut Writer)
    ensures { out.new ≡ out.old with_text refused_numbers number place }
{
    out.put_number(b"refused ", number);
    out.put_number(b" ", place);
    out.put(b"\n");
}

// The line of a refused one. Not by Refusal's Display: what `write!` gives to a writer of our own no proof knows.
#[tactic(auto, unfolding(crate::specs::Lines::refused_text))]
pub fn put_refused(refusal: Refusal, out: &mut Writer)
    ensures { out.new ≡ out.old with_text refused_text refusal }
{
    put_refused_numbers(u32::from(refusal.number()), u32::from(refusal.place()), out);
}
