// Numbers, and the bytes that end them.
ghost use Rattle.std.specs.Prelude.{◌≡◌, ◌≤◌, length};
ghost use Rattle.text.specs.Form.{ending};
ghost use Rattle.text.specs.Steps.{digit_of, extended_by, NumberRead};

// A number that was read, and the byte after what ends it.
#[derive(Clone, Copy)]
pub(crate) struct Number {
    pub value: u32,
    pub end: usize,
}

// The value of a digit.
#[tactic(auto, unfolding(crate::specs::Reading::is_digit))]
pub fn digit_value(byte: u8) -> Option<u32>
    ensures { result ≡ digit_of byte }
{
    if byte.is_ascii_digit() {
        Some((byte - b'0') as u32)
    } else {
        None
    }
}

// The value with one more digit. None where the byte may not follow: it is no digit, it follows a zero, or the number passes 32 bits.
#[tactic(auto, unfolding(crate::specs::Reading::is_digit, crate::specs::Reading::may_follow))]
pub fn extended(value: u32, byte: u8) -> Option<u32>
    ensures { result ≡ extended_by value byte }
{
    let digit = digit_value(byte)?;
    if value == 0 {
        return None;
    }
    value.checked_mul(10)?.checked_add(digit)
}

// What ends a number: LF if it is the last of its line, else a space.
pub fn ending_byte(last: bool) -> u8
    ensures { result ≡ ending last }
{
    if last { b'\n' } else { b' ' }
}

// Reads a number and the byte that ends it; or gives the byte that no good file could have there.
// (By hand: `parse` would take a sign and leading zeros, and tells no place.)
pub(crate) fn read_number(file: &[u8], start: usize, last: bool) -> Result<Number, usize>
    requires { start ≤ length file.now }
    ensures { NumberRead file.now start last result }
{
    if start == file.len() {
        return Err(start);
    }
    let mut value = digit_value(file[start]).ok_or(start)?;
    for at in start + 1..file.len() {
        let byte = file[at];
        if byte == ending_byte(last) {
            return Ok(Number { value, end: at + 1 });
        }
        value = extended(value, byte).ok_or(at)?;
    }
    Err(file.len())
}
