// What holds of every derivation.
ghost use Rattle.derivation.specs.Laws.{LawsHold, OneWay};

// Cells and volumes are kept, and every step uses up some of a potential.
pub fn laws_hold()
    ensures { LawsHold }
{}

// The book, the waiting scopes and the number of steps fix the blocks and what then waits.
pub fn one_way()
    ensures { OneWay }
{}
