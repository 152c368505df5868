// The laws over any list of calls, for every sink.
ghost use Rattle.build.specs.Lawful.{LawsHold};

use sinks::sink::Sink;

pub fn laws_hold<S: Sink>()
    ensures { LawsHold S.Sink.edge S.Sink.parts S.Sink.took S.Sink.kept S.Sink.text }
{}
