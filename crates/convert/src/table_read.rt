// A table's file read into lent words, for callers in C or Rust.
ghost use Rattle.std.specs.Prelude.{◌≡◌, length};
ghost use Rattle.convert.specs.Read.{table_read};

use text::placed::tell;
use text::read::read;

// Takes any bytes and any lent words. Gives the code, and by reference its place and the number of words.
pub fn table_read(file: &[u8], words: &mut [u32], at: &mut u32, count: &mut usize) -> u32
    ensures { record { code = result; at = at.new; count = count.new; lent = words.new } ≡ table_read file.now (length words.old) }
{
    tell(read(file, words), at, count)
}
