// The test that lines must pass to stand in a table.
ghost use Rattle.std.specs.Prelude.{◌≡◌, ℕ, ◌+◌, ◌≤◌, true, false, length, MatchOption};
ghost use Rattle.book.specs.Checks.{known, ok_known, ok_lone, ok_rules, part_rules, ok_body, ok_from, last_free, ok_lines};
ghost use Rattle.book.specs.Lines.{lines_of};

use crate::body::Body;
use crate::line::Line;
use crate::table::{PLACES, RuleTable};
use geometry::limits::{MATERIALS, MOST_LINES};
use rows::parts::Parts;

// A rule is told by the index of a line.
fn is_known(rule: u8) -> bool
    ensures { result ≡ known rule }
{
    rule < MOST_LINES
}

fn ok_known(rules: &[u8]) -> bool
    ensures { result ≡ ok_known rules.now }
{
    rules.iter().all(|rule| is_known(*rule))
}

// A lone part goes on with a rule further down than line i.
fn ok_lone(i: usize, rules: &[u8]) -> bool
    ensures { result ≡ ok_lone i rules.now }
{
    match rules {
        [rule] => i < *rule as usize,
        _ => true,
    }
}

fn ok_rules(i: usize, rules: &[u8]) -> bool
    ensures { result ≡ ok_rules i rules.now }
{
    ok_known(rules) && ok_lone(i, rules)
}

// The rules of a split's parts.
fn ok_parts(i: usize, parts: Parts, rules: &[u8; 16]) -> bool
    ensures { result ≡ ok_rules i (part_rules parts rules.now) }
{
    ok_rules(i, &rules[..parts.len()])
}

fn ok_body(i: usize, body: &Body) -> bool
    ensures { result ≡ ok_body i body.now }
{
    match *body {
        Body::Make(material) => material < MATERIALS,
        Body::Use(rule) => i < rule as usize && is_known(rule),
        Body::Repeat(_, _, rule) => i < rule as usize && is_known(rule),
        Body::Split(_, parts, rules) => ok_parts(i, parts, &rules),
    }
}

fn ok_from(lines: &[Line]) -> bool
    ensures { result ≡ ok_from 0 lines.now }
{
    lines
        .iter()
        .enumerate()
        .all(|(i, line)| ok_body(i, &line.body))
}

fn last_free(lines: &[Line]) -> bool
    ensures { result ≡ last_free lines.now }
{
    let Some(last) = lines.last() else {
        return false;
    };
    last.guards.len() == 0
}

impl RuleTable {
    // None where a line does not pass.
    pub fn new(lines: [Line; PLACES]) -> Option<RuleTable>
        ensures { MatchOption result (ok_lines lines ≡ false) (λ t. lines_of t ≡ lines) }
    {
        if ok_from(&lines) && last_free(&lines) {
            Some(RuleTable { lines })
        } else {
            None
        }
    }
}
