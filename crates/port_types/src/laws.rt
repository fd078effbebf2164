ghost use Rattle.port_types.specs.Numeral.{NumeralsTellNumbers};
ghost use Rattle.port_types.specs.PortLaws.{ReadsPorts, ReadsBack, TooWideIsUnbounded};

/// A text says ports exactly where its words are their texts, and they are at most 64, with markers and shapes of the format.
pub fn reads_ports()
    ensures { ReadsPorts }
{}

/// The printed text of such ports reads back as the ports.
pub fn reads_back()
    ensures { ReadsBack }
{}

/// A word is refused as too wide exactly where it is the text of a port but for widths past 64 or fields past 128.
pub fn too_wide_is_unbounded()
    ensures { TooWideIsUnbounded }
{}

/// A number below 2^64 has one decimal numeral, which is what is printed for it.
pub fn numerals_tell_numbers()
    ensures { NumeralsTellNumbers }
{}
