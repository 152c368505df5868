// Where the names that a rule line uses are looked for.
#[derive(Clone, Copy)]
pub enum Kind {
    // among the materials
    Material,
    // among the rules, and the rule begins further down than the line
    Below,
    // among the rules
    Anywhere,
}
