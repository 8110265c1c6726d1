// What the conditions ask of a block's last instruction.
ghost use Rattle.std.specs.Prelude.{◌≡◌, ◌<◌};
ghost use Rattle.table.specs.Words.{instruction_count};
ghost use Rattle.table.specs.Table.{table_of, instruction_at, instruction_rows_at};
ghost use Rattle.plain.specs.Tails.{IsTail, EndsIn, stores, stores_unnamed, loads_own};

use table::Table;
use table::columns::Operation;

// A LoadLocal is its own where it loads its own lvalue's identifier; a StoreLocal is unnamed where it stores to an unnamed identifier.
#[derive(Clone, Copy)]
pub enum Tail {
    Other,
    Load { own: bool },
    Store { unnamed: bool },
}

impl Tail {
    pub fn stores(self) -> bool
        ensures { result ≡ stores self }
    {
        matches!(self, Tail::Store { .. })
    }

    pub fn stores_unnamed(self) -> bool
        ensures { result ≡ stores_unnamed self }
    {
        matches!(self, Tail::Store { unnamed: true })
    }

    pub fn loads_own(self) -> bool
        ensures { result ≡ loads_own self }
    {
        matches!(self, Tail::Load { own: true })
    }
}

fn tail_of(table: Table<'_>, row: u32) -> Tail
    requires { row < instruction_count table.words.now }
    ensures { IsTail (table_of table.entry.words.now) (instruction_at (table_of table.entry.words.now) row) result }
{
    match table.operation(row) {
        Operation::Other => Tail::Other,
        Operation::LoadLocal { place } => {
            let head = table.instruction(row);
            Tail::Load {
                own: table.identifier(place) == table.identifier(head.lvalue),
            }
        }
        Operation::StoreLocal { stored_to, .. } => {
            let identifier = table.identifier(stored_to);
            Tail::Store {
                unnamed: !table.is_named(identifier),
            }
        }
    }
}

pub fn tail_at(table: Table<'_>, block: u32) -> Tail
    ensures { EndsIn (table_of table.entry.words.now) (instruction_rows_at (table_of table.entry.words.now) block) result }
{
    if block >= table.block_count() {
        return Tail::Other;
    }
    let head = table.block(block);
    if head.count == 0 {
        return Tail::Other;
    }
    tail_of(table, head.first + head.count - 1)
}
