// A text, and a result's lines, into lent bytes.
ghost use Rattle.std.specs.Prelude.{◌≡◌, ◌++◌, ◌+◌, ◌*◌, ◌/◌, ◌<◌, ◌≤◌, length, drop};
ghost use Rattle.text.specs.Decimal.{decimal};
ghost use Rattle.text.specs.Line.{line, lines, rows_in};
ghost use Rattle.text.specs.Printed.{printed};
ghost use Rattle.text.specs.Prints.{WrittenText};
ghost use Rattle.text.specs.Writer.{opened, byte_at, written, room, closed};

use crate::number::ending_byte;

// A text has more bytes than were lent.
#[derive(Clone, Copy, Debug, PartialEq, Eq)]
pub struct NoRoom;

// The four numbers of a result, in the order that they are printed.
#[derive(Clone, Copy)]
pub struct Numbers {
    pub code: u32,
    pub at: u32,
    pub rows: u32,
    pub visits: u32,
}

// Puts the digits of a number at the end of ten bytes, from the last on, and gives the first one's place.
#[inline(never)]
fn put_digits(digits: &mut [u8; 10], n: u32) -> usize
    ensures within { result ≤ 10 }
    ensures digits { drop result digits.new ≡ decimal n }
{
    let mut first = 9;
    let mut rest = n;
    while rest >= 10 {
        digits[first] = b'0' + (rest % 10) as u8;
        first -= 1;
        rest /= 10;
    }
    digits[first] = b'0' + rest as u8;
    first
}

// Writes into lent bytes from their begin on. Once a byte finds no place there is no end any more, nothing else is written, and `finish` says
// so; a writer is not Drop, so that it is finished. (No Result at each step: a text is many steps, and its caller asks once. No `fmt::Write`:
// where `write!` fails its contract says nothing of what was written, and here it says just which texts fit.)
pub struct Writer<'a> {
    out: &'a mut [u8],
    end: Option<usize>,
}

impl<'a> Writer<'a> {
    pub fn new(out: &'a mut [u8]) -> Writer<'a>
        ensures { result ≡ opened out.entry }
    {
        Writer { out, end: Some(0) }
    }

    #[inline(always)]
    fn byte(&mut self, byte: u8)
        ensures { self.new ≡ byte_at self.old.end self.old byte }
    {
        self.end = match self.end {
            Some(end) if end < self.out.len() => {
                self.out[end] = byte;
                Some(end + 1)
            }
            _ => None,
        };
    }

    #[inline(always)]
    fn each_byte(&mut self, bytes: &[u8])
        ensures { self.new ≡ written self.old bytes.now }
    {
        for byte in bytes {
            self.byte(*byte);
        }
    }

    // (A writer of its own over the same bytes, here, in `two_numbers` and in `rows`: so the place of the next byte stays in a register.)
    #[inline(always)]
    pub fn bytes(&mut self, bytes: &[u8])
        ensures { self.new ≡ written self.old bytes.now }
    {
        let mut writer = Writer {
            out: &mut *self.out,
            end: self.end,
        };
        writer.each_byte(bytes);
        let Writer { out: _, end } = writer;
        self.end = end;
    }

    // How many bytes still find a place.
    #[inline(always)]
    fn room(&self) -> usize
        ensures { result ≡ room self.now }
    {
        match self.end {
            Some(end) => self.out.len().saturating_sub(end),
            None => 0,
        }
    }

    // A byte that finds a place.
    #[inline(always)]
    fn put(&mut self, byte: u8)
        requires { 1 ≤ room self.old }
        ensures put { self.new ≡ byte_at self.old.end self.old byte }
        ensures left { room self.new + 1 ≡ room self.old }
    {
        if let Some(end) = self.end {
            prove!(end < self.out.len());
            self.out[end] = byte;
            self.end = Some(end + 1);
        }
    }

    // Bytes that all find a place.
    #[inline(always)]
    fn put_bytes(&mut self, bytes: &[u8])
        requires { length bytes.now ≤ room self.old }
        ensures put { self.new ≡ written self.old bytes.now }
        ensures left { room self.new + length bytes.now ≡ room self.old }
    {
        for byte in bytes {
            self.put(*byte);
        }
    }

    // A number of at most five digits, which all find a place: one after the other.
    #[inline(always)]
    fn put_short(&mut self, n: u32)
        requires short { n < 100000 }
        requires room { 5 ≤ room self.old }
        ensures put { self.new ≡ written self.old (decimal n) }
        ensures left { room self.old ≤ room self.new + 5 }
    {
        if n < 10 {
            self.put(b'0' + n as u8);
            return;
        }
        let last = b'0' + (n % 10) as u8;
        if n < 100 {
            self.put(b'0' + (n / 10) as u8);
            self.put(last);
        } else if n < 1000 {
            self.put(b'0' + (n / 10 / 10) as u8);
            self.put(b'0' + (n / 10 % 10) as u8);
            self.put(last);
        } else if n < 10000 {
            self.put(b'0' + (n / 10 / 10 / 10) as u8);
            self.put(b'0' + (n / 10 / 10 % 10) as u8);
            self.put(b'0' + (n / 10 % 10) as u8);
            self.put(last);
        } else {
            self.put(b'0' + (n / 10 / 10 / 10 / 10) as u8);
            self.put(b'0' + (n / 10 / 10 / 10 % 10) as u8);
            self.put(b'0' + (n / 10 / 10 % 10) as u8);
            self.put(b'0' + (n / 10 % 10) as u8);
            self.put(last);
        }
    }

    // A number, whose digits, ten at most, all find a place.
    #[inline(always)]
    fn put_number(&mut self, n: u32)
        requires { 10 ≤ room self.old }
        ensures put { self.new ≡ written self.old (decimal n) }
        ensures left { room self.old ≤ room self.new + 10 }
    {
        if n < 100000 {
            self.put_short(n);
        } else {
            let mut digits = [b'0'; 10];
            let first = put_digits(&mut digits, n);
            self.put_bytes(&digits[first..]);
        }
    }

    // A number in decimal. (Most are short and find a place. A call for each digit, or ten bytes for each number, takes twice the time.)
    #[inline(always)]
    pub fn number(&mut self, n: u32)
        ensures { self.new ≡ written self.old (decimal n) }
    {
        if n < 100000 && self.room() >= 5 {
            self.put_short(n);
        } else {
            let mut digits = [b'0'; 10];
            let first = put_digits(&mut digits, n);
            self.each_byte(&digits[first..]);
        }
    }

    // Two short numbers, with a text before, between and after them, which all find a place.
    #[inline(always)]
    fn put_two(&mut self, before: &[u8], first: u32, between: &[u8], second: u32, after: &[u8])
        requires first_short { first < 100000 }
        requires second_short { second < 100000 }
        requires room { length before.now + (5 + (length between.now + (5 + length after.now))) ≤ room self.old }
        ensures { self.new ≡ written self.old (before.now ++ (decimal first ++ (between.now ++ (decimal second ++ after.now)))) }
    {
        self.put_bytes(before);
        self.put_short(first);
        self.put_bytes(between);
        self.put_short(second);
        self.put_bytes(after);
    }

    // The same of any numbers, in whatever room there is.
    #[inline(never)]
    fn each_of_two(&mut self, before: &[u8], first: u32, between: &[u8], second: u32, after: &[u8])
        ensures { self.new ≡ written self.old (before.now ++ (decimal first ++ (between.now ++ (decimal second ++ after.now)))) }
    {
        self.bytes(before);
        self.number(first);
        self.bytes(between);
        self.number(second);
        self.bytes(after);
    }

    // Two numbers in decimal, with a text before, between and after them. (Most are short and find a place: one look at the room is enough for all
    // of it. The sum stops at 2 ^ 64 - 1, so the room has to be larger.)
    #[inline(always)]
    pub fn two_numbers(
        &mut self,
        before: &[u8],
        first: u32,
        between: &[u8],
        second: u32,
        after: &[u8],
    )
        ensures { self.new ≡ written self.old (before.now ++ (decimal first ++ (between.now ++ (decimal second ++ after.now)))) }
    {
        let most = before
            .len()
            .saturating_add(between.len())
            .saturating_add(after.len())
            .saturating_add(10);
        if first < 100000 && second < 100000 && most < self.room() {
            let mut writer = Writer {
                out: &mut *self.out,
                end: self.end,
            };
            writer.put_two(before, first, between, second, after);
            let Writer { out: _, end } = writer;
            self.end = end;
        } else if self.end.is_some() {
            self.each_of_two(before, first, between, second, after);
        }
    }

    // A line of numbers that all find a place, each of ten digits at most and what ends it.
    #[inline(always)]
    fn put_line(&mut self, numbers: &[u32])
        requires { length numbers.now * 11 ≤ room self.old }
        ensures { self.new ≡ written self.old (line numbers.now) }
    {
        for (i, number) in numbers.iter().enumerate() {
            self.put_number(*number);
            self.put(ending_byte(i + 1 == numbers.len()));
        }
    }

    // The same in whatever room there is.
    #[inline(always)]
    fn each_of_line(&mut self, numbers: &[u32])
        ensures { self.new ≡ written self.old (line numbers.now) }
    {
        for (i, number) in numbers.iter().enumerate() {
            self.number(*number);
            self.byte(ending_byte(i + 1 == numbers.len()));
        }
    }

    // A line of numbers. (Where all find a place, as most do, one look at the room is enough.)
    #[inline(always)]
    pub fn line(&mut self, numbers: &[u32])
        ensures { self.new ≡ written self.old (line numbers.now) }
    {
        if numbers.len().saturating_mul(11) < self.room() {
            self.put_line(numbers);
        } else {
            self.each_of_line(numbers);
        }
    }

    // The lines of `rows`; none any more once the lent bytes are full.
    #[inline(always)]
    fn each_row(&mut self, words: &[u32], stride: usize, width: usize)
        requires { width ≤ stride }
        ensures { self.new ≡ written self.old (lines (rows_in stride width words.now)) }
    {
        if stride == 0 {
            return;
        }
        for row in words.chunks_exact(stride) {
            if self.end.is_none() {
                return;
            }
            self.line(&row[..width]);
        }
    }

    // A line for each whole row of `stride` words: its first `width`. Rows of no words have no lines.
    pub fn rows(&mut self, words: &[u32], stride: usize, width: usize)
        requires { width ≤ stride }
        ensures { self.new ≡ written self.old (lines (rows_in stride width words.now)) }
    {
        let mut writer = Writer {
            out: &mut *self.out,
            end: self.end,
        };
        writer.each_row(words, stride, width);
        let Writer { out: _, end } = writer;
        self.end = end;
    }

    // Ends the text with zeros; or there are zeros alone, if it did not fit.
    pub fn finish(self) -> Result<usize, NoRoom>
        ensures { record { answer = result; bytes = self.exit.0.now } ≡ closed self.entry }
    {
        let Writer { out, end } = self;
        match end {
            Some(end) if end <= out.len() => {
                out[end..].fill(0);
                Ok(end)
            }
            _ => {
                out.fill(0);
                Err(NoRoom)
            }
        }
    }
}

// The lines of a result.
#[inline(always)]
fn write_result(writer: &mut Writer<'_>, numbers: Numbers, tree: &[u32])
    ensures { writer.new ≡ written writer.old (printed numbers.code numbers.at numbers.rows numbers.visits tree.now) }
{
    let Numbers {
        code,
        at,
        rows,
        visits,
    } = numbers;
    writer.bytes(b"code at rows visits\n");
    writer.line(&[code, at, rows, visits]);
    if code != 0 {
        return;
    }
    writer.bytes(b"op a b c d e\n");
    writer.rows(tree, 6, 6);
}

// Writes a result: its numbers, and if the code says accepted a line for each whole row of six words of the tree. The lent bytes hold the
// lines and then zeros; zeros alone, if the lines do not fit. 77 bytes, and 66 for each row, are always enough.
pub fn write(out: &mut [u8], numbers: Numbers, tree: &[u32]) -> Result<usize, NoRoom>
    ensures { WrittenText (77 + length tree.now / 6 * 66) (printed numbers.code numbers.at numbers.rows numbers.visits tree.now) (length out.old) result out.new }
{
    let mut writer = Writer::new(out);
    write_result(&mut writer, numbers, tree);
    writer.finish()
}
