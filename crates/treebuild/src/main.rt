// Reads a table from standard input and prints its tree, or why there is none, to standard output.
#![tactic(auto)]

use build::file::build_file;
use control::rule::Rule;
use program::{TABLE_BYTES, TREE_BYTES, run};
use std::process::ExitCode;
use text::lent::zeros;

fn main(rt: HostRuntime) -> ExitCode {
    let mut file = zeros::<u8, TABLE_BYTES>();
    let mut out = zeros::<u8, TREE_BYTES>();
    run(
        &rt,
        b"treebuild",
        &mut file,
        &mut out,
        |file, out| build_file(Rule::Rust, file, out),
    )
}
