// Reads a table from standard input and prints it with its blocks in walking order, or why it is refused, to standard output.
#![tactic(auto)]

use order::file::order_file;
use program::{ORDERED_BYTES, TABLE_BYTES, run};
use std::process::ExitCode;
use text::lent::zeros;

fn main(rt: HostRuntime) -> ExitCode {
    let mut file = zeros::<u8, TABLE_BYTES>();
    let mut out = zeros::<u8, ORDERED_BYTES>();
    run(&rt, b"treeorder", &mut file, &mut out, order_file)
}
