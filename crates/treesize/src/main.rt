// Reads a table from standard input and prints what its build needs, or why it is refused, to standard output.
#![tactic(auto)]

use preview::file::size_file;
use program::{SIZE_BYTES, TABLE_BYTES, run};
use std::process::ExitCode;
use text::lent::zeros;

fn main(rt: HostRuntime) -> ExitCode {
    let mut file = zeros::<u8, TABLE_BYTES>();
    let mut out = zeros::<u8, SIZE_BYTES>();
    run(&rt, b"treesize", &mut file, &mut out, size_file)
}
