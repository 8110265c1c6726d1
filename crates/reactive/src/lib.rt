// The library for C (ffi/reactive.h). Each function has the prefix `reactive_` and the name of a function in a room below, which it calls
// and whose promise it has.
#![tactic(auto)]

ghost use Rattle.std.specs.Prelude.{◌≡◌, length};
ghost use Rattle.table.specs.Check.{checked};
ghost use Rattle.table.specs.Answer.{code_of, place_of};
ghost use Rattle.definition.specs.Around.{rust, language};
ghost use Rattle.definition.specs.Build.{built};
ghost use Rattle.definition.specs.Preview.{previewed};
ghost use Rattle.lookup.specs.Lookup.{found};
ghost use Rattle.tree_check.specs.Found.{tree_checked};
ghost use Rattle.tree_runs.specs.Given.{run_of};
ghost use Rattle.dot.specs.Dot.{drawn};
ghost use Rattle.convert.specs.Write.{table_written};
ghost use Rattle.convert.specs.Read.{table_read};
ghost use Rattle.convert.specs.Convert.{old_to_new, new_to_old};
ghost use Rattle.renaming.specs.Order.{rearrangement, restoration};
ghost use Rattle.plain.specs.Plainness.{plainness_of};

#[unsafe(no_mangle)]
pub extern "C" fn reactive_build(
    words: &[u32],
    tree: &mut [u32],
    index: &mut [u32],
    at: &mut u32,
    rows: &mut u32,
    visits: &mut u32,
    lines: &mut u32,
) -> u32
    ensures { record { code = result; at = at.new; rows = rows.new; visits = visits.new; lines = lines.new; buffer = tree.new; index = index.new } ≡ built rust words.now (length tree.old) (length index.old) }
{
    build::reactive_build(words, tree, index, at, rows, visits, lines)
}

#[unsafe(no_mangle)]
pub extern "C" fn reactive_build_language(
    words: &[u32],
    tree: &mut [u32],
    index: &mut [u32],
    at: &mut u32,
    rows: &mut u32,
    visits: &mut u32,
    lines: &mut u32,
) -> u32
    ensures { record { code = result; at = at.new; rows = rows.new; visits = visits.new; lines = lines.new; buffer = tree.new; index = index.new } ≡ built language words.now (length tree.old) (length index.old) }
{
    build::reactive_build_language(words, tree, index, at, rows, visits, lines)
}

#[unsafe(no_mangle)]
pub extern "C" fn reactive_preview(
    words: &[u32],
    at: &mut u32,
    rows: &mut u32,
    visits: &mut u32,
    lines: &mut u32,
) -> u32
    ensures { record { code = result; at = at.new; rows = rows.new; visits = visits.new; lines = lines.new } ≡ previewed rust words.now }
{
    preview::reactive_preview(words, at, rows, visits, lines)
}

#[unsafe(no_mangle)]
pub extern "C" fn reactive_preview_language(
    words: &[u32],
    at: &mut u32,
    rows: &mut u32,
    visits: &mut u32,
    lines: &mut u32,
) -> u32
    ensures { record { code = result; at = at.new; rows = rows.new; visits = visits.new; lines = lines.new } ≡ previewed language words.now }
{
    preview::reactive_preview_language(words, at, rows, visits, lines)
}

#[unsafe(no_mangle)]
pub extern "C" fn reactive_tree_lookup(
    index: &[u32],
    lines: u32,
    label: u32,
    tree: &[u32],
    at: &mut u32,
    begin: &mut usize,
    end: &mut usize,
) -> u32
    ensures { record { code = result; at = at.new; begin = begin.new; end = end.new } ≡ found index.now lines label (length tree.now) }
{
    lookup::tree_lookup(index, lines, label, tree, at, begin, end)
}

#[unsafe(no_mangle)]
pub extern "C" fn reactive_tree_check(tree: &[u32], at: &mut u32) -> u32
    ensures { record { code = result; at = at.new } ≡ tree_checked tree.now }
{
    tree_check::tree_check(tree, at)
}

#[unsafe(no_mangle)]
pub extern "C" fn reactive_tree_run(
    tree: &[u32],
    answers: &[u32],
    performed: &mut [u32],
    at: &mut u32,
    number: &mut usize,
    reason: &mut u32,
) -> u32
    ensures { record { code = result; at = at.new; number = number.new; reason = reason.new; buffer = performed.new } ≡ run_of tree.now answers.now (length performed.old) }
{
    tree_run::tree_run(tree, answers, performed, at, number, reason)
}

#[unsafe(no_mangle)]
pub extern "C" fn reactive_blocks_to_dot(
    words: &[u32],
    text: &mut [u8],
    at: &mut u32,
    size: &mut usize,
) -> u32
    ensures { record { code = result; at = at.new; length = size.new; buffer = text.new } ≡ drawn words.now (length text.old) }
{
    dot::blocks_to_dot(words, text, at, size)
}

#[unsafe(no_mangle)]
pub extern "C" fn reactive_table_write(
    words: &[u32],
    text: &mut [u8],
    at: &mut u32,
    size: &mut usize,
) -> u32
    ensures { record { code = result; at = at.new; length = size.new; buffer = text.new } ≡ table_written words.now (length text.old) }
{
    convert::writing::table_write(words, text, at, size)
}

#[unsafe(no_mangle)]
pub extern "C" fn reactive_table_read(
    file: &[u8],
    words: &mut [u32],
    at: &mut u32,
    count: &mut usize,
) -> u32
    ensures { record { code = result; at = at.new; count = count.new; lent = words.new } ≡ table_read file.now (length words.old) }
{
    convert::table_read::table_read(file, words, at, count)
}

#[unsafe(no_mangle)]
pub extern "C" fn reactive_table_old_to_new(
    file: &[u8],
    text: &mut [u8],
    at: &mut u32,
    size: &mut usize,
) -> u32
    ensures { record { code = result; at = at.new; length = size.new; buffer = text.new } ≡ old_to_new file.now (length text.old) }
{
    convert::table_old_to_new(file, text, at, size)
}

#[unsafe(no_mangle)]
pub extern "C" fn reactive_table_new_to_old(
    file: &[u8],
    text: &mut [u8],
    at: &mut u32,
    size: &mut usize,
) -> u32
    ensures { record { code = result; at = at.new; length = size.new; buffer = text.new } ≡ new_to_old file.now (length text.old) }
{
    convert::table_new_to_old(file, text, at, size)
}

#[unsafe(no_mangle)]
pub extern "C" fn reactive_blocks_rearrange(
    words: &[u32],
    new_words: &mut [u32],
    old_numbers: &mut [u32],
    at: &mut u32,
) -> u32
    ensures { record { code = result; at = at.new; table = new_words.new; list = old_numbers.new } ≡ rearrangement words.now (length new_words.old) (length old_numbers.old) }
{
    order::blocks_rearrange(words, new_words, old_numbers, at)
}

#[unsafe(no_mangle)]
pub extern "C" fn reactive_blocks_restore(
    words: &[u32],
    old_numbers: &[u32],
    first_words: &mut [u32],
    at: &mut u32,
) -> u32
    ensures { record { code = result; at = at.new; table = first_words.new } ≡ restoration words.now old_numbers.now (length first_words.old) }
{
    order::blocks_restore(words, old_numbers, first_words, at)
}

#[unsafe(no_mangle)]
pub extern "C" fn reactive_table_check(words: &[u32], at: &mut u32) -> u32
    ensures { (result ≡ code_of (checked words.now)) × (at.new ≡ place_of (checked words.now)) }
{
    table_check::table_check(words, at)
}

#[unsafe(no_mangle)]
pub extern "C" fn reactive_table_plain(words: &[u32], at: &mut u32, number: &mut u32) -> u32
    ensures value { (result ≡ code_of (checked words.now)) × (at.new ≡ place_of (checked words.now)) }
    ensures number_after { number.new ≡ plainness_of words.now }
{
    plain::table_plain(words, at, number)
}
