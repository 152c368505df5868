// Lists of the names of a rule file, with their places.
use bounded::bounded::BoundedVec;
use text::placed::Placed;

// The names of the rule lines.
pub type RuleNames<'a> = BoundedVec<Placed<&'a [u8]>, 64>;

// The names that the bodies of the rule lines use.
// Stays: tokens and this list are passed side by side, since tokens are read alone too.
pub type Uses<'a> = BoundedVec<Placed<&'a [u8]>, 1024>;
