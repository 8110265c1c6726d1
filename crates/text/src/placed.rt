// A text in a lent buffer: the answer of an entry that writes one.
ghost use Rattle.std.specs.Prelude.{◌≡◌, List, ℕ, length};
ghost use Rattle.text.specs.Placed.{answer_code, answer_place, placing, cleared, printed_placing, Holding};
ghost use Rattle.text.specs.Prints.{refusal_text, WrittenText};

use crate::write::{NoRoom, Numbers, write};

// An error with a code and a place of the papers.
pub trait Coded {
    ghost code_of: { Self → ℕ };

    ghost place_of: { Self → ℕ };

    fn code(self) -> u32
        ensures { result ≡ code_of self };

    fn place(self) -> u32
        ensures { result ≡ place_of self };
}

// An entry's answer. "A refusal leaves zeros."
pub fn finish<E: Coded + Copy>(answer: Result<usize, E>, text: &mut [u8]) -> Result<usize, E>
    ensures { placing E.code_of E.place_of result text.new ≡ cleared E.code_of E.place_of answer text.old }
{
    if answer.is_err() {
        text.fill(0);
    }
    answer
}

// Tells an answer to callers in C: the code (0 accepted), and the place by reference.
pub fn tell_code<T: Copy, E: Coded + Copy>(answer: Result<T, E>, at: &mut u32) -> u32
    ensures code { result ≡ answer_code E.code_of answer }
    ensures place { at.new ≡ answer_place E.place_of answer }
{
    match answer {
        Ok(_) => {
            *at = 0;
            0
        }
        Err(error) => {
            *at = error.place();
            error.code()
        }
    }
}

// The same of a text, with its length by reference.
pub fn tell<E: Coded + Copy>(answer: Result<usize, E>, at: &mut u32, size: &mut usize) -> u32
    ensures { (buffer : List ℕ) → record { code = result; at = at.new; length = size.new; buffer = buffer } ≡ placing E.code_of E.place_of answer buffer }
{
    *size = answer.unwrap_or(0);
    tell_code(answer, at)
}

// The two lines of a refusal: 77 bytes are enough. Code 0 says accepted, so no error may have it.
pub fn write_refusal<E: Coded + Copy>(out: &mut [u8], error: E) -> Result<usize, NoRoom>
    requires { E.code_of error ≡ 0 → ⊥ }
    ensures { WrittenText 77 (refusal_text (E.code_of error) (E.place_of error)) (length out.old) result out.new }
{
    let numbers = Numbers {
        code: error.code(),
        at: error.place(),
        rows: 0,
        visits: 0,
    };
    write(out, numbers, &[])
}

// What is printed of an answer: the text, which stands in the bytes already, or the two lines of a refusal.
pub fn print<E: Coded + Copy>(answer: Result<usize, E>, out: &mut [u8]) -> Result<usize, NoRoom>
    requires nonzero { (error : E) → E.code_of error ≡ 0 → ⊥ }
    requires holding { Holding (length out.old) (placing E.code_of E.place_of answer out.old) }
    ensures { WrittenText 77 (printed_placing (placing E.code_of E.place_of answer out.old)) (length out.old) result out.new }
{
    match answer {
        Ok(length) => Ok(length),
        Err(error) => write_refusal(out, error),
    }
}
