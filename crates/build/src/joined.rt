// Lots joined to a checked book, each with the rule that it begins with.
use book::table::RuleTable;
use bounded::inline::InlineVec;
use geometry::scope::Scope;

#[derive(Drop)]
pub struct JoinedLots {
    pub(crate) table: RuleTable,
    pub(crate) lots: InlineVec<Scope, 16>,
}
