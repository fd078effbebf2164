//! Laws of what is read: of rows, of numbers, and of whole graphs.
ghost use Rattle.graph_read.specs.Laws.{RowsAreMet, RowsReadBack, DecimalValues, HexadecimalValues, DecimalTags};
ghost use Rattle.graph_read.specs.GraphLaws.{ReadIsTyped, ReadHasAllowedNames};

use fun_expr::said_by_grammar;
use op_table::tests_are_the_table;
use port_types::{numerals_tell_numbers, reads_ports};

/// A kind is read from ports and attributes exactly where it meets its row of the table of ports with them.
pub fn rows_are_met()
    ensures { RowsAreMet }
{
    tests_are_the_table();
    said_by_grammar();
}

/// The ports and attributes of a kind read as the kind.
pub fn rows_read_back()
    ensures { RowsReadBack }
{
    tests_are_the_table();
    said_by_grammar();
}

/// Values and numbers of tags read as they are written.
pub fn numbers_read_back()
    ensures decimal { DecimalValues }
    ensures hexadecimal { HexadecimalValues }
    ensures tags { DecimalTags }
{
    numerals_tell_numbers();
}

/// A graph that is read is typed and within the limits, and its names are allowed where the document's texts are UTF-8.
pub fn read_graphs_are_typed()
    ensures typed { ReadIsTyped }
    ensures named { ReadHasAllowedNames }
{
    reads_ports();
    rows_are_met();
}
