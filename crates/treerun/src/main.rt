// Reads rows of a tree and answers from standard input, runs the tree by them and prints what it performed to standard output.
#![tactic(auto)]

use program::{RAN_BYTES, ROWS_BYTES, run};
use std::process::ExitCode;
use text::lent::zeros;
use tree_run::file::run_file;

fn main(rt: HostRuntime) -> ExitCode {
    let mut file = zeros::<u8, ROWS_BYTES>();
    let mut out = zeros::<u8, RAN_BYTES>();
    run(&rt, b"treerun", &mut file, &mut out, run_file)
}
