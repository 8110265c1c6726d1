// The programs oldtonew and newtoold as functions: a file's bytes in, the bytes that are printed of it out.
// Two functions, one for each program: the theorems name them.
ghost use Rattle.std.specs.Prelude.{◌≡◌, ◌≤◌, length, Ok};
ghost use Rattle.text.specs.Prints.{printing};
ghost use Rattle.convert.specs.Prints.{new_text, old_text};

use crate::{new_to_old, old_to_new};
use text::placed::print;
use text::write::NoRoom;

// An old file in the new form, or why it is refused. 65,542 bytes are enough for any text, 77 for any refusal.
#[tactic(auto, using(crate::proofs::AnswerLaws::convert_some))]
pub fn print_new(file: &[u8], out: &mut [u8]) -> Result<usize, NoRoom>
    ensures out_after { record { answer = result; bytes = out.new } ≡ printing (length out.old) (new_text (length out.old) file.now) }
    ensures value { 77 ≤ length out.old → result ≡ Ok (length (new_text (length out.old) file.now)) }
{
    print(old_to_new(file, out), out)
}

// A new file in the old form, or why it is refused. 32,768 bytes are enough for any text, 77 for any refusal.
#[tactic(auto, using(crate::proofs::AnswerLaws::convert_some))]
pub fn print_old(file: &[u8], out: &mut [u8]) -> Result<usize, NoRoom>
    ensures out_after { record { answer = result; bytes = out.new } ≡ printing (length out.old) (old_text (length out.old) file.now) }
    ensures value { 77 ≤ length out.old → result ≡ Ok (length (old_text (length out.old) file.now)) }
{
    print(new_to_old(file, out), out)
}
