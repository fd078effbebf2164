ghost use Rattle.op_table.specs.Laws.{GraphWordsDiffer, ShortWordsDiffer, TypedWidths, NamesAreFound, WidthsAreTested, ValueFits, ReadingComesBack, NumberComesBack, SubUndoesAdd, AddUndoesSub, UnsignedQuotient, UnsignedDivisionComesBack, SignedDivisionComesBack, SignedQuotient, SignedRemainder, LeastByMinusOne, AshrRoundsDown, ShiftedOut, BitByBit, TruncUndoesZext, TruncUndoesSext, SextKeepsReading};

/// No two operators share a name, in a graph or in a function.
pub fn names_differ()
    ensures graph { GraphWordsDiffer }
    ensures short { ShortWordsDiffer }
{}

/// Typed widths are one to three inputs, and none is above 64.
pub fn typed_widths_are_few()
    ensures { TypedWidths }
{}

/// The tests of names and widths tell the table of operators.
pub fn tests_are_the_table()
    ensures names { NamesAreFound }
    ensures widths { WidthsAreTested }
{}

/// A value fits its width, where the widths are typed and the inputs fit theirs.
pub fn value_fits()
    ensures { ValueFits }
{}

/// Numbers of a width and their signed readings stand for each other.
pub fn readings_come_back()
    ensures reading { ReadingComesBack }
    ensures number { NumberComesBack }
{}

/// Adding and subtracting undo each other.
pub fn sums_come_back()
    ensures sub { SubUndoesAdd }
    ensures add { AddUndoesSub }
{}

/// Unsigned quotient and remainder make up the dividend, and the remainder is below the divisor.
/// At the width they make it up for the divisor 0 too.
pub fn unsigned_division()
    ensures whole { UnsignedQuotient }
    ensures at_width { UnsignedDivisionComesBack }
{}

/// Signed quotient and remainder make up the dividend; the remainder is nearer to 0 than the divisor and has the dividend's sign.
/// At the width they make it up for every divisor.
pub fn signed_division()
    ensures whole { SignedQuotient }
    ensures remainder { SignedRemainder }
    ensures at_width { SignedDivisionComesBack }
    ensures corner { LeastByMinusOne }
{}

/// A shift to the right that copies the sign rounds the quotient by a power of two down, and shifts by the width or more leave nothing but copies of the sign.
pub fn shifts_round_down()
    ensures rounds_down { AshrRoundsDown }
    ensures shifted_out { ShiftedOut }
{}

/// Each binary digit of `and`, `or` and `xor` is made from the two digits at its place.
pub fn digits_by_place()
    ensures { BitByBit }
{}

/// Cutting undoes widening, and widening by the sign keeps the signed reading.
pub fn widths_come_back()
    ensures zeros { TruncUndoesZext }
    ensures sign { TruncUndoesSext }
    ensures reading { SextKeepsReading }
{}
