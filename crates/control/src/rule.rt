/// Which entry is asked for. `Rust` builds what the Rust builds. `Language` also labels a break to a loop out of a
/// switch that is being built in between, and refuses a label that no statement around has.
#[derive(Clone, Copy, PartialEq, Eq, Drop)]
pub enum Rule {
    Rust,
    Language,
}
