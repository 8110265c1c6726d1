// As treebuild, by the language's rule (M-102).
#![tactic(auto)]

use build::file::build_file;
use control::rule::Rule;
use program::{TABLE_BYTES, TREE_BYTES, run};
use std::process::ExitCode;
use text::lent::zeros;

fn main(rt: HostRuntime) -> ExitCode {
    let mut file = zeros::<u8, TABLE_BYTES>();
    let mut out = zeros::<u8, TREE_BYTES>();
    run(
        &rt,
        b"treebuild_language",
        &mut file,
        &mut out,
        |file, out| build_file(Rule::Language, file, out),
    )
}
