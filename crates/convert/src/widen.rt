// Old words in the new form: a span's word twice.
ghost use Rattle.std.specs.Prelude.{◌≡◌, ◌+◌, ◌*◌, ◌/◌, ◌≤◌, ◌<◌, length, take};
ghost use Rattle.text.specs.Layout.{layout};
ghost use Rattle.text.specs.declared.version.Version.TheVariants.{Old};
ghost use Rattle.convert.specs.Cut.{Shaped};
ghost use Rattle.convert.specs.Widen.{doubled_rows, widened};

// Copies rows of `width` words, and the last word of each row once more.
// (By places: a proof knows nothing of the words behind `chunks_exact_mut`.)
fn widen_rows(rows: &[u32], width: usize, wide: &mut [u32])
    requires some_words { 0 < width }
    requires wide_len { length wide.old ≡ length rows.now / width * (width + 1) }
    ensures { wide.new ≡ doubled_rows width (length rows.now / width) rows.now }
{
    let mut at = 0;
    for row in rows.chunks_exact(width) {
        let end = at + width;
        wide[at..end].copy_from_slice(row);
        wide[end] = row[width - 1];
        at = end + 1;
    }
}

// Words of a good file, which become at most 19,456.
#[tactic(auto, using(crate::proofs::WidenLaws::old_within))]
pub fn widen(old: &[u32], wide: &mut [u32; 19456]) -> usize
    requires shaped { Shaped (layout Old) old.now }
    requires len_bound { length old.now ≤ 16384 }
    ensures within { result ≤ 19456 }
    ensures wide_after { take result wide.new ≡ widened old.now }
{
    let blocks = old[1] as usize;
    let instructions = old[2] as usize;
    let first = 6 + blocks * 10;
    let cases = first + instructions * 6;
    let wide_first = first + blocks;
    let wide_cases = cases + blocks + instructions;
    let count = old.len() + blocks + instructions;
    wide[..6].copy_from_slice(&old[..6]);
    widen_rows(&old[6..first], 10, &mut wide[6..wide_first]);
    widen_rows(&old[first..cases], 6, &mut wide[wide_first..wide_cases]);
    wide[wide_cases..count].copy_from_slice(&old[cases..]);
    count
}
