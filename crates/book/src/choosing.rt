// The line that applies to a scope.
ghost use Rattle.std.specs.Prelude.{◌≡◌};
ghost use Rattle.std.specs.List.{position};
ghost use Rattle.book.specs.Applying.{holds as guard_holds, hold, opens_to, Applies};
ghost use Rattle.book.specs.Lines.{lines_of};

use crate::guard::Guard;
use crate::line::Line;
use crate::table::RuleTable;
use geometry::cuboid::Cuboid;
use geometry::scope::Scope;

fn holds(guard: Guard, cuboid: Cuboid) -> bool
    ensures { result ≡ guard_holds cuboid guard }
{
    let size = cuboid.on(guard.axis).size;
    (guard.low.0..=guard.high.0).contains(&size.0)
}

fn all_hold(guards: &[Guard], cuboid: Cuboid) -> bool
    ensures { result ≡ hold cuboid guards.now }
{
    guards.iter().all(|guard| holds(*guard, cuboid))
}

fn is_open(line: &Line, cuboid: Cuboid) -> bool
    ensures { result ≡ opens_to cuboid line.now }
{
    all_hold(line.guards.as_slice(), cuboid)
}

// The place of the first line whose guards all hold.
fn first_open(lines: &[Line], cuboid: Cuboid) -> Option<usize>
    ensures { result ≡ position (opens_to cuboid) lines.now }
{
    lines.iter().position(|line| is_open(line, cuboid))
}

impl RuleTable {
    // The index of the first line from the rule's first on whose guards all hold, and that line, lent. There is one: the
    // last line has no guard.
    pub fn choose_ref(&self, scope: Scope) -> (usize, &Line)
        ensures { Applies (lines_of self.now) scope.rule scope.cuboid result.0 result.1.now }
    {
        let first = scope.rule as usize;
        let Some(k) = first_open(&self.lines[first..], scope.cuboid) else {
            unreachable!()
        };
        let i = first + k;
        (i, &self.lines[i])
    }

    // The same index, and a copy of the line, which stays when the table is gone.
    pub fn choose(&self, scope: Scope) -> (usize, Line)
        ensures { Applies (lines_of self.now) scope.rule scope.cuboid result.0 result.1 }
    {
        let (i, line) = self.choose_ref(scope);
        (i, *line)
    }
}
