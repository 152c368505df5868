// What holds of every row and every order of remainders.
ghost use Rattle.rows.specs.Laws.{AnyOrder, RemaindersSuffice};
ghost use Rattle.rows.specs.Cases.{WorkedCases};

// Largest remainders alone, under any rule for ties, make rows close and keep their bound.
pub fn largest_remainders_suffice()
    ensures orders { AnyOrder }
    ensures lengths { RemaindersSuffice }
{}

// The worked cases.
pub fn cases_hold()
    ensures { WorkedCases }
{}
