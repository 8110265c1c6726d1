// The two forms of a file, and the columns of their tables.
ghost use Rattle.std.specs.Prelude.{◌≡◌};
ghost use Rattle.text.specs.Layout.{block_columns, instruction_columns};
ghost use Rattle.text.specs.Steps.{columns_of};

#[derive(Clone, Copy, Drop)]
pub enum Version {
    // Paper 01's: a span is one word.
    Old,
    // Paper 02's, M-108: a span is two words, from and to.
    New,
}

// A table's line of names, and how many numbers its other lines have.
#[derive(Clone, Copy)]
pub struct Columns<'a> {
    pub names: &'a [u8],
    pub width: usize,
}

// The head's, which is the same in both forms; so are the last three tables'.
pub const HEAD: Columns<'static> = Columns {
    names: b"entry blocks instructions cases places identifiers\n",
    width: 6,
};

pub const CASES: Columns<'static> = Columns {
    names: b"test block\n",
    width: 2,
};

pub const PLACES: Columns<'static> = Columns {
    names: b"identifier\n",
    width: 1,
};

pub const IDENTIFIERS: Columns<'static> = Columns {
    names: b"named\n",
    width: 1,
};

pub const OLD_BLOCKS: Columns<'static> = Columns {
    names: b"first count code a b c d e id span\n",
    width: 10,
};

pub const BLOCKS: Columns<'static> = Columns {
    names: b"first count code a b c d e id from to\n",
    width: 11,
};

pub const OLD_INSTRUCTIONS: Columns<'static> = Columns {
    names: b"id lvalue code p q span\n",
    width: 6,
};

pub const INSTRUCTIONS: Columns<'static> = Columns {
    names: b"id lvalue code p q from to\n",
    width: 7,
};

impl Version {
    pub fn block_columns(self) -> Columns<'static>
        ensures { columns_of result ≡ block_columns self }
    {
        match self {
            Version::Old => OLD_BLOCKS,
            Version::New => BLOCKS,
        }
    }

    pub fn instruction_columns(self) -> Columns<'static>
        ensures { columns_of result ≡ instruction_columns self }
    {
        match self {
            Version::Old => OLD_INSTRUCTIONS,
            Version::New => INSTRUCTIONS,
        }
    }
}
