// Reads a file of the new form from standard input and prints it in the old form, with one span column, or why it is refused.
#![tactic(auto)]

use convert::file::print_old;
use program::{CONVERTED_BYTES, TABLE_BYTES, run};
use std::process::ExitCode;
use text::lent::zeros;

fn main(rt: HostRuntime) -> ExitCode {
    let mut file = zeros::<u8, TABLE_BYTES>();
    let mut out = zeros::<u8, CONVERTED_BYTES>();
    run(&rt, b"newtoold", &mut file, &mut out, print_old)
}
