// Words and numbers behind them. Assumes nothing.
ghost use Rattle.std.specs.Prelude.{◌≡◌, map, take};
ghost use Rattle.listing.specs.Writer.{◌with_text◌};
ghost use Rattle.pages.specs.Words.{word, marked, listed};
ghost use Rattle.pages.specs.Bars.{barred_word};

use listing::writer::Writer;

// Word i of a list, and nothing where it has none.
pub fn word<'a>(words: &[&'a [u8]], i: usize) -> &'a [u8]
    ensures { result.now ≡ word i (map (λ w. w.now) words.now) }
{
    match words.get(i) {
        Some(w) => w,
        None => b"",
    }
}

// Word i of a text that has a bar behind each word, and nothing where it has none.
#[tactic(auto, using(listing::specs::WriterLaws::texts, crate::specs::BarLaws::bar_steps))]
pub fn put_word(text: &[u8], i: usize, out: &mut Writer)
    ensures { out.new ≡ out.old with_text barred_word i text.now }
{
    let mut left = i;
    for &x in text {
        if x == b'|' {
            if left == 0 {
                return;
            }
            left -= 1;
        } else if left == 0 {
            out.put(&[x]);
        }
    }
}

// A word and a number, and nothing where the number is 0.
#[tactic(auto, using(listing::specs::WriterLaws::texts), unfolding(crate::specs::Words::marked))]
pub fn put_mark(word: &[u8], x: u32, out: &mut Writer)
    ensures { out.new ≡ out.old with_text marked word.now x }
{
    if x != 0 {
        out.put_number(word, x);
    }
}

// Each number between the two words.
#[tactic(auto, using(listing::specs::WriterLaws::texts, crate::specs::WordLaws::listed_steps))]
pub fn put_listed(before: &[u8], behind: &[u8], xs: &[u8], out: &mut Writer)
    ensures { out.new ≡ out.old with_text listed before.now behind.now xs.now }
{
    for &x in xs {
        out.put_number(before, u32::from(x));
        out.put(behind);
    }
}

// The first n of them, or all where there are no more.
pub fn put_first(before: &[u8], behind: &[u8], xs: &[u8], n: usize, out: &mut Writer)
    ensures { out.new ≡ out.old with_text listed before.now behind.now (take n xs.now) }
{
    put_listed(before, behind, &xs[..n.min(xs.len())], out);
}
