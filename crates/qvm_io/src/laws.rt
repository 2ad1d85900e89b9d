ghost use Rattle.qvm_io.specs.Laws.{NextCountRises, RiseInPartIsRise, FrontsJoin};

/// A count that goes on to the next one has risen, also at its end.
pub fn next_count_rises()
    ensures { NextCountRises }
{}

/// A caller may hand on a fault of any of its parts as its own.
pub fn rise_in_part_is_rise()
    ensures { RiseInPartIsRise }
{}

/// Pieces that are written one after the other make one output, of which a fault leaves a front.
pub fn fronts_join()
    ensures { FrontsJoin }
{}
