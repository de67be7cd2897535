// Checks 6 to 8: Labels once each, names that have a Label, and the last instruction. Assumes nothing.
ghost use Rattle.std.specs.Prelude.{◌≡◌, ◌-◌, ◌*◌, ◌/◌, ◌%◌, ◌^◌, ◌<◌, ◌≤◌, get_or, set, length, replicate};
ghost use Rattle.base.specs.Lists.{has};
ghost use Rattle.dataflow_domains.specs.Mask.{holds, union};
ghost use Rattle.stackless_bytecode.specs.Kinds.{at, falls_through};
ghost use Rattle.sheet.specs.Layout.{code_of};
ghost use Rattle.sheet_labels.specs.Labelled.{LabelsOf, LabelLists, Search, Named};

use sheet::shaped::ShapedSheet;

// Words of a bitmap of all label numbers.
const SEEN_WORDS: usize = 1024;

// Whether number l is in the bitmap. It is no set of locals: that is a value, and these are 8 KiB.
fn has_bit(seen: &[u64; SEEN_WORDS], l: u16) -> bool
    ensures { result ≡ holds (get_or seen.now (l / 64) 0) (l % 64) }
{
    let at = usize::from(l / 64);
    (seen[at] >> (l % 64)) & 1 == 1
}

// Number l is put in.
fn put_bit(seen: &mut [u64; SEEN_WORDS], l: u16)
    ensures { seen.new ≡ set seen.old (l / 64) (union (get_or seen.old (l / 64) 0) (2 ^ (l % 64))) }
{
    let at = usize::from(l / 64);
    seen[at] |= 1u64 << (l % 64);
}

// Check 6, in one pass with a bitmap of the numbers that were met: how many Labels there are; or the first whose number an earlier one has.
// Their numbers and offsets are then at the fronts of `labels` and `places`: two lists, since `skip` compares many numbers at once. The check makes the refusal of the offset.
pub fn list_labels(
    sheet: ShapedSheet<'_>,
    labels: &mut [u16],
    places: &mut [u16],
) -> Result<usize, usize>
    requires labels { sheet.count ≤ length labels.old }
    requires places { sheet.count ≤ length places.old }
    ensures { LabelsOf (code_of sheet.entry.bytes.now) result labels.new places.new }
{
    let mut seen = [0u64; SEEN_WORDS];
    let mut m = 0;
    for k in 0..sheet.count {
        let r = sheet.instruction(k);
        if r.is_label() {
            if has_bit(&seen, r.one) {
                return Err(k);
            }
            put_bit(&mut seen, r.one);
            labels[m] = r.one;
            places[m] = k as u16;
            m += 1;
        }
    }
    Ok(m)
}

// Labels that are looked at together.
const GROUP: usize = 32;

// Whether a list has l. Each is compared, so that the machine compares many at once.
fn list_has(p: &[u16], l: u16) -> bool
    ensures { result ≡ has l p.now }
{
    let mut found = false;
    for &x in p {
        found |= l == x;
    }
    found
}

// How many labels in front, group by group, are not l. A range: over chunks_exact the proof speaks of the list of all that was handed out, and is no plainer.
fn skip(labels: &[u16], l: u16) -> usize
    ensures { Search labels.now l result }
{
    let groups = labels.len() / GROUP;
    for g in 0..groups {
        let j = GROUP * g;
        if list_has(&labels[j..j + GROUP], l) {
            return j;
        }
    }
    GROUP * groups
}

// Check 7: the first instruction that names a label that no Label has: a search in a search, broken out of at the first name, as the paper asks by place.
// If there is none, `targets` has the offset of every slot's label: `labels` and `places` are the numbers and the offsets of the Labels.
pub fn resolve(
    sheet: ShapedSheet<'_>,
    labels: &[u16],
    places: &[u16],
    targets: &mut [u16],
) -> Option<usize>
    requires listed { LabelLists (code_of sheet.bytes.now) labels.now places.now }
    requires slots { 2 * sheet.count ≤ length targets.old }
    ensures { Named (code_of sheet.entry.bytes.now) sheet.entry.count result targets.new }
{
    let mut e = 0;
    'outer: loop {
        if e >= 2 * sheet.count {
            return None;
        }
        let r = sheet.instruction(e / 2);
        if let Some(l) = r.name(e % 2) {
            let mut j = skip(labels, l);
            loop {
                if j >= labels.len() {
                    break 'outer;
                }
                if labels[j] == l {
                    break;
                }
                j += 1;
            }
            targets[e] = places[j];
        }
        e += 1;
    }
    Some(e / 2)
}

// Check 8: whether the last instruction can fall past the end.
pub fn last_falls(sheet: ShapedSheet<'_>) -> bool
    ensures { result ≡ falls_through (at (code_of sheet.entry.bytes.now) (sheet.entry.count - 1)) }
{
    sheet.instruction(sheet.count - 1).falls_through()
}
