// Reads rows of a tree from standard input, checks them and prints the answer to standard output.
#![tactic(auto)]

use program::{CHECKED_BYTES, ROWS_BYTES, run};
use std::process::ExitCode;
use text::lent::zeros;
use tree_check::file::check_file;

fn main(rt: HostRuntime) -> ExitCode {
    let mut file = zeros::<u8, ROWS_BYTES>();
    let mut out = zeros::<u8, CHECKED_BYTES>();
    run(&rt, b"treecheck", &mut file, &mut out, check_file)
}
