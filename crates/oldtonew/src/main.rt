// Reads a file of the old form, with one span column, from standard input and prints it in the new form, or why it is refused.
#![tactic(auto)]

use convert::file::print_new;
use program::{CONVERTED_BYTES, TABLE_BYTES, run};
use std::process::ExitCode;
use text::lent::zeros;

fn main(rt: HostRuntime) -> ExitCode {
    let mut file = zeros::<u8, TABLE_BYTES>();
    let mut out = zeros::<u8, CONVERTED_BYTES>();
    run(&rt, b"oldtonew", &mut file, &mut out, print_new)
}
