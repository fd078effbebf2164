//! Laws of plugging.
ghost use Rattle.module_sem.specs.Laws.{CircuitsCanPlug};

/// Where graphs can be plugged, their circuits can, by the names of the links' ends.
pub fn circuits_can_plug()
    ensures { CircuitsCanPlug }
{}
