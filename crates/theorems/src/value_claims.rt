// What is proved of tables with values: Logical, Ternary, Optional, Sequence and MaybeThrow.
ghost use Rattle.theorems.specs.Values.{WithValues, LoopsAreWide, LoopsRunAsBefore, TheTestOfValuesIsRight, ValuesRunAsTold};

/// For every table that a compiler makes without Try, ForOf and ForIn, the tree runs as the blocks.
pub fn with_values()
    ensures { WithValues }
{}

/// The tables with DoWhile, For and Switch are among them.
pub fn loops_are_wide()
    ensures { LoopsAreWide }
{}

/// And their runs are the same.
pub fn loops_run_as_before()
    ensures { LoopsRunAsBefore }
{}

/// Whether a table is one of them can be computed.
pub fn the_test_of_values_is_right()
    ensures { TheTestOfValuesIsRight }
{}

/// Five small tables run as it was written down by hand.
pub fn values_run_as_told()
    ensures { ValuesRunAsTold }
{}
