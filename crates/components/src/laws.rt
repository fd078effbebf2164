ghost use Rattle.components.specs.Component.{WordsReadBack};
ghost use Rattle.components.specs.Laws.{PortsAreShapes};

use op_table::typed_widths_are_few;

/// A kind that meets its row has at most 64 ports on a side, and each has a shape.
pub fn ports_are_shapes()
    ensures { PortsAreShapes }
{
    typed_widths_are_few();
}

/// Each component is found by its word.
pub fn words_read_back()
    ensures { WordsReadBack }
{}
