// Levels, and which cell may flow to which.
#![tactic(auto)]

ghost use Rattle.std.specs.Prelude.{◌≡◌, min, get_or};
ghost use Rattle.rules.specs.Level.{equals, flows_to, flows_from};
ghost use Rattle.rules.specs.Words.{tab_from};
ghost use Rattle.rules.specs.Layout.{max_cells, configuration, flow_matrix};
ghost use Rattle.levels.specs.Rule.{rule_level, code_level, level_at};

use rules::{CELL_WORDS, HEADER_WORDS, MAX_CELLS};
use words::{wide, word};

// A security category, an integrity category and a set of 32 compartments, one for each bit.
#[derive(Clone, Copy, Default, PartialEq, Eq)]
pub struct Level {
    pub security: u32,
    pub integrity: u32,
    pub compartments: u32,
}

// Document 01 names these three methods, so that `equals` stands beside the derived `==`.
impl Level {
    pub fn equals(self, other: Level) -> bool
        ensures { result ≡ equals (rule_level self) (rule_level other) }
    {
        self == other
    }

    // Up in security and compartments, down in integrity.
    pub fn flows_to(self, other: Level) -> bool
        ensures { result ≡ flows_to (rule_level self) (rule_level other) }
    {
        let inside = self.compartments & other.compartments == self.compartments;
        (self.security <= other.security) & (inside & (other.integrity <= self.integrity))
    }

    pub fn flows_from(self, other: Level) -> bool
        ensures { result ≡ flows_from (rule_level self) (rule_level other) }
    {
        other.flows_to(self)
    }
}

// The level of cell c; past the last cell there is none, and its words are told as 0.
pub fn level_at(t: &[u32], c: u32) -> Level
    ensures { rule_level result ≡ level_at (configuration t.now) c }
{
    if c < word(t, 0) {
        let at = HEADER_WORDS + CELL_WORDS * wide(c);
        Level {
            security: word(t, at),
            integrity: word(t, at + 1),
            compartments: word(t, at + 2),
        }
    } else {
        Level::default()
    }
}

// How many of the sixteen cells the table has.
fn count(t: &[u32]) -> u32
    ensures { result ≡ min (get_or t.now 0 0) max_cells }
{
    word(t, 0).min(MAX_CELLS as u32)
}

// Each cell's level, read once. The array is filled up to the last cell: tried, array::from_fn is slower, as it asks at every one of the sixteen.
pub fn levels(t: &[u32]) -> [Level; MAX_CELLS]
    ensures { result ≡ tab_from 0 max_cells (λ c. code_level (level_at (configuration t.now) c)) }
{
    let mut all = [Level::default(); MAX_CELLS];
    for c in 0..count(t) {
        all[c as usize] = level_at(t, c);
    }
    all
}

// Which cell may flow to which: made at the start of a call and handed round whole. "Reading needs flow from object to process": row c says of each cell whether it
// may read what c holds.
pub fn flow_matrix(t: &[u32]) -> [[bool; MAX_CELLS]; MAX_CELLS]
    ensures { result ≡ flow_matrix (configuration t.now) }
{
    let n = wide(count(t));
    let all = levels(t);
    let mut m = [[false; MAX_CELLS]; MAX_CELLS];
    for c in 0..n {
        let from = all[c];
        for d in 0..n {
            m[c][d] = all[d].flows_from(from);
        }
    }
    m
}
