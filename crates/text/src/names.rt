// The line of names that a table begins with.
ghost use Rattle.std.specs.Prelude.{◌≡◌, ◌≤◌, length, nat_eq};
ghost use Rattle.std.specs.List.{take_while, zip};
ghost use Rattle.text.specs.Steps.{NamesRead};

// How many bytes of these names the file begins with.
pub fn names_end(file: &[u8], names: &[u8]) -> usize
    ensures { result ≡ length (take_while (λ p. nat_eq p.1 p.0) (zip names.now file.now)) }
{
    names
        .iter()
        .zip(file)
        .take_while(|(name, byte)| byte == name)
        .count()
}

// Reads a line of names, and gives the byte after it; or the byte that no good file could have there.
pub(crate) fn read_names(file: &[u8], start: usize, names: &[u8]) -> Result<usize, usize>
    requires { start ≤ length file.now }
    ensures { NamesRead file.now names.now start result }
{
    let count = names_end(&file[start..], names);
    let end = start + count;
    if count == names.len() {
        Ok(end)
    } else {
        Err(end)
    }
}
