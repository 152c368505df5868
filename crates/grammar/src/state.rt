// What a line must have next.

// The file that is read.
#[derive(Clone, Copy, PartialEq, Eq, Debug)]
pub enum FileKind {
    Rules,
    Lots,
}

// What a name is wanted for: the material that the line declares, the rule line's own name, a material or a rule that is used.
#[derive(Clone, Copy, PartialEq, Eq, Debug)]
pub enum Naming {
    Declared,
    Own,
    Material,
    Rule,
}

// A state is named by what comes next; a count says how many guards may still come, and `GuardHigh` has the least HIGH.
#[derive(Clone, Copy)]
pub enum State {
    Start(FileKind),
    Head(FileKind),
    MaterialName,
    RuleName,
    Items(u8),
    Item(u8),
    GuardAxis(u8),
    GuardLow(u8),
    GuardHigh(u8, u32),
    GuardEnd(u8),
    BodyName(Naming),
    BodyEnd,
    RepeatAxis,
    RepeatTile,
    SplitAxis,
    Parts,
    Part,
    PartLength,
    PartWeight,
    PartName,
    PartEnd,
    More,
    CornerX,
    CornerY,
    CornerZ,
    SizeX,
    SizeY,
    SizeZ,
    LotName,
    FormEnd,
    Done,
}
