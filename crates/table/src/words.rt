// The words by row and column. Each access works out from the head where its table begins. That costs a few loads from a cache line
// that is always in the cache, and no caller has to carry the beginnings and a fact about them.
ghost use Rattle.std.specs.Prelude.{◌≡◌, ◌<◌, ◌≤◌, length};
ghost use Rattle.table.specs.Words.{entry_word, block_count, instruction_count, case_count, place_count, identifier_count};
ghost use Rattle.table.specs.Words.{instructions_begin, cases_begin, places_begin, identifiers_begin, words_needed};
ghost use Rattle.table.specs.Words.{block_word, instruction_word, case_word, place_word, identifier_word};
ghost use Rattle.table.specs.Promise.{Limited, Sized};

// A reader for each word of the head: a number for the word would ask each caller for a bound on it.
pub fn entry(words: &[u32]) -> u32
    requires { 6 ≤ length words.now }
    ensures { result ≡ entry_word words.now }
{
    words[0]
}

pub fn block_count(words: &[u32]) -> u32
    requires { 6 ≤ length words.now }
    ensures { result ≡ block_count words.now }
{
    words[1]
}

pub fn instruction_count(words: &[u32]) -> u32
    requires { 6 ≤ length words.now }
    ensures { result ≡ instruction_count words.now }
{
    words[2]
}

pub fn case_count(words: &[u32]) -> u32
    requires { 6 ≤ length words.now }
    ensures { result ≡ case_count words.now }
{
    words[3]
}

pub fn place_count(words: &[u32]) -> u32
    requires { 6 ≤ length words.now }
    ensures { result ≡ place_count words.now }
{
    words[4]
}

pub fn identifier_count(words: &[u32]) -> u32
    requires { 6 ≤ length words.now }
    ensures { result ≡ identifier_count words.now }
{
    words[5]
}

// These ask for `Limited` and take no `Words`: the check works out with them how many words there must be.
pub fn instructions_begin(words: &[u32]) -> u32
    requires { Limited words.now }
    ensures { (result ≡ instructions_begin words.now) × (result ≤ 11270) }
{
    6 + block_count(words) * 11
}

pub fn cases_begin(words: &[u32]) -> u32
    requires { Limited words.now }
    ensures { (result ≡ cases_begin words.now) × (result ≤ 39942) }
{
    instructions_begin(words) + instruction_count(words) * 7
}

pub fn places_begin(words: &[u32]) -> u32
    requires { Limited words.now }
    ensures { (result ≡ places_begin words.now) × (result ≤ 41990) }
{
    cases_begin(words) + case_count(words) * 2
}

pub fn identifiers_begin(words: &[u32]) -> u32
    requires { Limited words.now }
    ensures { (result ≡ identifiers_begin words.now) × (result ≤ 46086) }
{
    places_begin(words) + place_count(words)
}

pub fn words_needed(words: &[u32]) -> u32
    requires { Limited words.now }
    ensures { result ≡ words_needed words.now }
{
    identifiers_begin(words) + identifier_count(words)
}

// The words of five tables: as many as the head says.
#[derive(Clone, Copy)]
pub struct Words<'a> {
    pub words: &'a [u32],
    pub ghost sized: { Sized words.now },
}

// A reader for each table. One for all would be no plainer: it would take the beginning and the width, and ask each caller for a bound on a product.
impl Words<'_> {
    pub fn block_word(self, row: u32, column: u32) -> u32
        requires row_bound { row < block_count self.words.now }
        requires column_bound { column < 11 }
        ensures { result ≡ block_word self.entry.words.now row column }
    {
        let at = (6 + row * 11 + column) as usize;
        self.words[at]
    }

    pub fn instruction_word(self, row: u32, column: u32) -> u32
        requires row_bound { row < instruction_count self.words.now }
        requires column_bound { column < 7 }
        ensures { result ≡ instruction_word self.entry.words.now row column }
    {
        let at = (instructions_begin(self.words) + row * 7 + column) as usize;
        self.words[at]
    }

    pub fn case_word(self, row: u32, column: u32) -> u32
        requires row_bound { row < case_count self.words.now }
        requires column_bound { column < 2 }
        ensures { result ≡ case_word self.entry.words.now row column }
    {
        let at = (cases_begin(self.words) + row * 2 + column) as usize;
        self.words[at]
    }

    // The identifier of a place.
    pub fn place_word(self, row: u32) -> u32
        requires row_bound { row < place_count self.words.now }
        ensures { result ≡ place_word self.entry.words.now row }
    {
        let at = (places_begin(self.words) + row) as usize;
        self.words[at]
    }

    // Whether an identifier is named, 0 or 1.
    pub fn identifier_word(self, row: u32) -> u32
        requires row_bound { row < identifier_count self.words.now }
        ensures { result ≡ identifier_word self.entry.words.now row }
    {
        let at = (identifiers_begin(self.words) + row) as usize;
        self.words[at]
    }
}
