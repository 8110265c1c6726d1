// The two ends of spans, and the places of words in the old form, which has no second end.
ghost use Rattle.std.specs.Prelude.{◌≡◌, ◌+◌, ◌*◌, ◌/◌, ◌≤◌, length};
ghost use Rattle.table.specs.Words.{block_count, instruction_count};
ghost use Rattle.table.specs.Answer.{refusal_code, refusal_place};
ghost use Rattle.convert.specs.Convert.{ends_agree, spans_verdict};
ghost use Rattle.convert.specs.Parts.{old_place, apart_at, moved};

use table::words::{block_count, cases_begin, instruction_count, instructions_begin};
use table::{Refusal, Table};

// The place in the old form of a word that has this place in the widened words.
#[tactic(auto, using(crate::proofs::SpanLaws::place_head))]
fn old_place(wide: &[u32], at: u32) -> u32
    requires in_bounds { 6 ≤ length wide.now }
    requires wide_bound { 6 + block_count wide.now * 11 + instruction_count wide.now * 7 ≤ 19456 }
    ensures { result ≡ old_place (block_count wide.now) (instruction_count wide.now) at }
{
    if at < 6 {
        return at;
    }
    let blocks = block_count(wide);
    let instructions = instruction_count(wide);
    let first = 6 + blocks * 11;
    if at < first {
        return at - (at - 6) / 11;
    }
    if at < first + instructions * 7 {
        return at - blocks - (at - first) / 7;
    }
    at - blocks - instructions
}

// A refusal of the widened words, with its place in the old form.
#[tactic(auto, using(crate::proofs::SpanLaws::place_head))]
pub fn in_old_form(wide: &[u32], refusal: Refusal) -> Refusal
    requires in_bounds { 6 ≤ length wide.now }
    requires wide_bound { 6 + block_count wide.now * 11 + instruction_count wide.now * 7 ≤ 19456 }
    ensures code { refusal_code result ≡ refusal_code refusal }
    ensures place { refusal_place result ≡ old_place (block_count wide.now) (instruction_count wide.now) (refusal_place refusal) }
{
    match refusal {
        Refusal::CountOverLimit(at) => Refusal::CountOverLimit(old_place(wide, at)),
        Refusal::BadWord(at) => Refusal::BadWord(old_place(wide, at)),
        _ => refusal,
    }
}

// The place of the first `to` that differs from its `from`, in rows of `width` words. The first row begins at the place `begin`.
fn apart_in(rows: &[u32], width: usize, begin: usize) -> Option<u32>
    requires le_width { 2 ≤ width }
    requires in_bounds { begin + length rows.now ≤ 65536 }
    ensures { apart_at result ≡ moved (λ at. begin + at) (ends_agree rows.now width 0 (length rows.now / width)) }
{
    let mut end = begin;
    for row in rows.chunks_exact(width) {
        end += width;
        if row[width - 2] != row[width - 1] {
            return Some(end as u32 - 1);
        }
    }
    None
}

// The word of the first `to` that differs from its `from`.
#[tactic(auto, using(crate::proofs::TextLaws::sized_within))]
pub fn first_apart(table: Table<'_>) -> Option<u32>
    ensures { apart_at result ≡ spans_verdict table.entry.words.now }
{
    let words = table.words;
    let instructions = instructions_begin(words) as usize;
    let cases = cases_begin(words) as usize;
    if let Some(at) = apart_in(&words[6..instructions], 11, 6) {
        return Some(at);
    }
    apart_in(&words[instructions..cases], 7, instructions)
}
