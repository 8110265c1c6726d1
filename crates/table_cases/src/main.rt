// Runs word lists through the check and compares code and place with those stored beside each list.
// A line of the input: code, place, then the words as pairs of a value and how often it stands there. A number ends with any byte below '0', and a
// list with a line's end behind the second number of a pair (or behind the place). LISTS.md says how the lists were made.
#![tactic(auto)]

ghost use Rattle.std.specs.Prelude.{◌≤◌, length};

use program::read_part;
use std::io;
use table_check::check;
use text::lent::zeros;

// Stores a word `times` times, from an index on, as far as there is room. Gives the index after it.
fn fill(words: &mut [u32], from: usize, word: u32, times: u32) -> usize
    ensures { result ≤ length words.old }
{
    let end = from.saturating_add(times as usize).min(words.len());
    let begin = from.min(end);
    words[begin..end].fill(word);
    end
}

// The bytes that are left, and the byte that was passed over last.
#[derive(Drop)]
struct Reader<'a> {
    rest: &'a [u8],
    last: u8,
}

impl Reader<'_> {
    ghost use Rattle.std.specs.Prelude.{◌<◌, ◌≡◌, ◌⊎◌};

    // A number, modulo 2^32, with the byte after it passed over.
    fn number(&mut self) -> u32
        ensures past { length self.old.rest.now ≡ 0 ⊎ length self.new.rest.now < length self.old.rest.now }
    {
        let mut value: u32 = 0;
        while let Some((byte, rest)) = self.rest.split_first() {
            self.rest = rest;
            self.last = *byte;
            if *byte < b'0' {
                break;
            }
            value = value.wrapping_mul(10).wrapping_add((*byte - b'0') as u32);
        }
        value
    }

    // The words of a line, from a pair on, to the end of the line. Gives their number.
    fn list(&mut self, words: &mut [u32]) -> usize
        ensures onward { length self.new.rest.now ≤ length self.old.rest.now }
        ensures fits { result ≤ length words.old }
    {
        let mut count = 0;
        while !self.rest.is_empty() && self.last != b'\n' {
            let word = self.number();
            if self.rest.is_empty() {
                break;
            }
            let times = self.number();
            count = fill(words, count, word, times);
        }
        count
    }
}

// Whether the check answers these words by this code and place.
fn agrees(words: &[u32], code: u32, place: u32) -> bool {
    match check(words) {
        Ok(_) => code == 0 && place == 0,
        Err(error) => error.code() == code && error.place() == place,
    }
}

fn main(rt: HostRuntime) -> io::Result<()> {
    let mut text = zeros::<u8, 262144>();
    let count = read_part(&mut rt.stdin(), &mut text);
    let mut words = zeros::<u32, 45200>();
    let mut reader = Reader {
        rest: &text[..count],
        last: 0,
    };
    let mut lists: u32 = 0;
    let mut differences: u32 = 0;
    while !reader.rest.is_empty() {
        let code = reader.number();
        if reader.rest.is_empty() {
            break;
        }
        let place = reader.number();
        let count = reader.list(&mut words);
        lists = lists.saturating_add(1);
        if !agrees(&words[..count], code, place) {
            differences = differences.saturating_add(1);
        }
    }
    println!(rt; "{lists} lists, {differences} differences")
}
