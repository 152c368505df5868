// What holds of every drawing.
ghost use Rattle.texts.specs.Objs.{LinesJoin};

// The text of the blocks that a drawing took is the join of their lines.
pub fn lines_join()
    ensures { LinesJoin }
{}
