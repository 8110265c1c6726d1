// M-106: what a build gives where both buffers are large enough, from the words alone. It is the same walk with empty buffers: the walk
// still counts rows and lines.
#![tactic(auto)]

pub mod file;

ghost use Rattle.std.specs.Prelude.{◌≡◌};
ghost use Rattle.definition.specs.Around.{rust, language};
ghost use Rattle.definition.specs.Preview.{previewed};
ghost use Rattle.control.specs.Rule.{rule_of};
ghost use Rattle.preview.specs.Entry.{numbers};

use control::rule::Rule;
use walk::answer::{WalkError, Walked, tell};
use walk::entry::walk;

fn preview_by(rule: Rule, words: &[u32]) -> Result<Walked, WalkError>
    ensures { numbers result ≡ previewed (rule_of rule) words.now }
{
    walk(rule, words, &mut [], &mut [])
}

pub fn preview(words: &[u32]) -> Result<Walked, WalkError>
    ensures { numbers result ≡ previewed rust words.now }
{
    preview_by(Rule::Rust, words)
}

// The preview of the language entry (M-102).
pub fn preview_language(words: &[u32]) -> Result<Walked, WalkError>
    ensures { numbers result ≡ previewed language words.now }
{
    preview_by(Rule::Language, words)
}

// The same for callers in C or Rust: the code, and the other four words by reference, as C takes them. (Two entries, as in `build`.)
pub fn reactive_preview(
    words: &[u32],
    at: &mut u32,
    rows: &mut u32,
    visits: &mut u32,
    lines: &mut u32,
) -> u32
    ensures { record { code = result; at = at.new; rows = rows.new; visits = visits.new; lines = lines.new } ≡ previewed rust words.now }
{
    tell(preview(words), at, rows, visits, lines)
}

pub fn reactive_preview_language(
    words: &[u32],
    at: &mut u32,
    rows: &mut u32,
    visits: &mut u32,
    lines: &mut u32,
) -> u32
    ensures { record { code = result; at = at.new; rows = rows.new; visits = visits.new; lines = lines.new } ≡ previewed language words.now }
{
    tell(preview_language(words), at, rows, visits, lines)
}
