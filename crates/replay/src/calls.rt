// A stored case, asked of the call that it names: whether the call answers as it is stored, and none where the case is damaged. Assumes nothing.
use agreement::{
    Dying, InputGraph, LentCall, Live, Renumber, Rewrite, StoredCase, check_agrees,
    conditional_agrees, flow_agrees, in_use_agrees, label_agrees, lent_agrees, live_class_agrees,
};
use base::{ANSWER_NUMBERS, BLOCK_BYTES, LIVE_BYTES, MAX_SHEETS};
use sheet::reader::u32_at;
use stored_cases::op::Op;
use stored_cases::packed::{FILL, ROOM};

// A lent 16-bit number before a call.
const FILL_NUMBER: u16 = 42405;

// The most 16-bit numbers that are lent.
const TABLE_NUMBERS: usize = 8192;

// The bytes of a graph in front of its triples: the count of nodes and the live mask.
const TRIPLES_AT: usize = 12;

// The most numbers in a list of triples.
const TRIPLE_NUMBERS: usize = 1021;

// The most bytes and numbers that are lent to a class set.
const CLASS_BYTES: usize = MAX_SHEETS * LIVE_BYTES + BLOCK_BYTES;

const CLASS_NUMBERS: usize = 64;

// A number of a class set's answers before a call.
const FILL_ANSWER: u32 = 2779096485;

// What is stored of each sheet of a class set: number, place, count, and how many bytes it writes.
const SHEET_ROW: usize = 16;

// The longest graph.
pub const GRAPH_BYTES: usize = TRIPLES_AT + 4 * TRIPLE_NUMBERS;

// The graph in these bytes, whose list of triples goes to the front of `triples`.
fn graph_in<'a>(p: &[u8], triples: &'a mut [u32]) -> Option<InputGraph<'a>> {
    let (head, list) = p.split_at_checked(TRIPLES_AT)?;
    if list.len() % 4 != 0 {
        return None;
    }
    let out = triples.get_mut(..list.len() / 4)?;
    for (x, bytes) in out.iter_mut().zip(list.chunks_exact(4)) {
        *x = u32_at(bytes, 0);
    }
    Some(InputGraph {
        nodes: u32_at(head, 0),
        live: u64::from_le_bytes(*head[4..].first_chunk().unwrap()),
        triples: out,
    })
}

// The asked node or label, which four bytes are.
fn asked_in(p: &[u8]) -> Option<u32> {
    Some(u32::from_le_bytes(p.try_into().ok()?))
}

fn ask_flow(sheet: &[u8], stored: StoredCase<'_>) -> Option<bool> {
    if stored.lent > TABLE_NUMBERS {
        return None;
    }
    let mut table = [FILL_NUMBER; TABLE_NUMBERS];
    let mut out = [FILL; ROOM];
    Some(flow_agrees(sheet, stored, &mut table, &mut out))
}

// Live, rewrite, renumber or dying.
fn ask_lent<C: LentCall>(call: &C, stored: StoredCase<'_>) -> Option<bool> {
    if stored.lent > ROOM {
        return None;
    }
    let mut out = [FILL; ROOM];
    Some(lent_agrees(call, stored, &mut out))
}

// In use, or conditional, of the node in four bytes.
fn ask_node<F: Fn(InputGraph<'_>, u32, u64) -> bool>(
    agrees: F,
    graph: &[u8],
    asked: &[u8],
    res: u64,
) -> Option<bool>
    requires { F.IsAlwaysCallable agrees }
{
    let mut triples = [0u32; TRIPLE_NUMBERS];
    let graph = graph_in(graph, &mut triples)?;
    Some(agrees(graph, asked_in(asked)?, res))
}

fn ask_dying(graph: &[u8], next: &[u8], stored: StoredCase<'_>) -> Option<bool> {
    let mut triples = [0u32; TRIPLE_NUMBERS];
    let mut next_triples = [0u32; TRIPLE_NUMBERS];
    let graph = graph_in(graph, &mut triples)?;
    let next = graph_in(next, &mut next_triples)?;
    ask_lent(&Dying { graph, next }, stored)
}

// What a class set is to leave: the bytes of its sheets, which stand one behind the other in `written`, each at its own place, and their numbers. None where
// these bytes are no class set's answer; a row for each sheet.
fn lay_out(rows: &[u8], written: &[u8], want: &mut [u8], numbered: &mut [u32]) -> Option<()> {
    if rows.len() % SHEET_ROW != 0 || rows.len() / SHEET_ROW > MAX_SHEETS {
        return None;
    }
    let mut rest = written;
    for (k, row) in rows.chunks_exact(SHEET_ROW).enumerate() {
        let (bytes, behind) = rest.split_at_checked(u32_at(row, 12) as usize)?;
        let slot = want.get_mut(LIVE_BYTES * k..)?;
        slot.get_mut(..bytes.len())?.copy_from_slice(bytes);
        let answer = numbered.get_mut(ANSWER_NUMBERS * k..)?;
        let numbers = [u32_at(row, 0), u32_at(row, 4), u32_at(row, 8)];
        answer.get_mut(..ANSWER_NUMBERS)?.copy_from_slice(&numbers);
        rest = behind;
    }
    Some(())
}

// `second` has how many numbers are lent, then the rows.
fn ask_live_class(sheets: &[u8], second: &[u8], stored: StoredCase<'_>) -> Option<bool> {
    let (numbers, rows) = second.split_first_chunk()?;
    let numbers = u32::from_le_bytes(*numbers) as usize;
    let mut want = [FILL; CLASS_BYTES];
    let mut numbered = [FILL_ANSWER; CLASS_NUMBERS];
    lay_out(rows, stored.want, &mut want, &mut numbered)?;
    if numbers > CLASS_NUMBERS || stored.lent > CLASS_BYTES {
        return None;
    }
    let mut sets = [FILL; CLASS_BYTES];
    let mut answers = [FILL_ANSWER; CLASS_NUMBERS];
    Some(live_class_agrees(
        sheets,
        StoredCase {
            want: &want,
            ..stored
        },
        numbers,
        &numbered,
        &mut sets,
        &mut answers,
    ))
}

// The call that `op` names.
pub fn ask(op: Op, input: &[u8], second: &[u8], stored: StoredCase<'_>) -> Option<bool> {
    match op {
        Op::Flow => ask_flow(input, stored),
        Op::Live => ask_lent(&Live { sheet: input }, stored),
        Op::Rewrite => ask_lent(&Rewrite { sheet: input }, stored),
        Op::InUse => ask_node(in_use_agrees, input, second, stored.result),
        Op::Conditional => ask_node(conditional_agrees, input, second, stored.result),
        Op::Dying => ask_dying(input, second, stored),
        Op::Check => Some(check_agrees(input, stored.result)),
        Op::Renumber => ask_lent(&Renumber { sheet: input }, stored),
        Op::Label => Some(label_agrees(input, asked_in(second)?, stored.result)),
        Op::LiveClass => ask_live_class(input, second, stored),
    }
}
