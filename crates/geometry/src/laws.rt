// What holds of every box, grid and row of pieces.
ghost use Rattle.geometry.specs.Laws.{PiecesShare, VolumesCount};

// Pieces laid end to end that fill a box share with every cell, together, what the box shares with it; and so their volumes.
pub fn pieces_share()
    ensures { PiecesShare }
{}

// A volume is the number of millimetre cubes in the box; a shared volume that of the cubes in box and cell.
pub fn volumes_count()
    ensures { VolumesCount }
{}
