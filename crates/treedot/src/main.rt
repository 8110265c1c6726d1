// Reads a table from standard input and prints its blocks as a graph in DOT, or why there is none, to standard output.
#![tactic(auto)]

use dot::file::draw_file;
use program::{DRAWING_BYTES, TABLE_BYTES, run};
use std::process::ExitCode;
use text::lent::zeros;

fn main(rt: HostRuntime) -> ExitCode {
    let mut file = zeros::<u8, TABLE_BYTES>();
    let mut out = zeros::<u8, DRAWING_BYTES>();
    run(&rt, b"treedot", &mut file, &mut out, draw_file)
}
