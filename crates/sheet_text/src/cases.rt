// Worked cases.
ghost use Rattle.sheet_text.specs.Cases.{Table};

// The definitions give the table of worked cases.
pub fn worked_cases()
    ensures { Table }
{}
