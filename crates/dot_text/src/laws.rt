ghost use Rattle.dot_text.specs.Laws.{TokenIsLongest, OneDocument, OnePlace, NoPlaceInDocument, MachineGoes, MachineEnds, ReadingDecides, LooksNoFurther, StandsWithin, DocumentIsUtf8, PrintedStands, PrintedIsUtf8, StandingPrints, StandingIsUtf8, StandingStandsPrinted, StreamDecides, StreamGoesOn, StreamFinds, StreamFindsAtOnce, StreamFails, SkippingDecides, OneEndOfBlanks, OneUnclosed, NotBothSkips};

/// A token is the longest one that begins at its byte.
pub fn token_is_longest()
    ensures { TokenIsLongest }
{}

/// At one place at most one document stands, with one end.
pub fn one_document()
    ensures { OneDocument }
{}

/// A fault has one place, and none where a document stands.
pub fn one_place()
    ensures one { OnePlace }
    ensures none { NoPlaceInDocument }
{}

/// The plain machine takes tokens exactly where they can go on, and takes a document whole.
pub fn machine_decides()
    ensures goes { MachineGoes }
    ensures whole { MachineEnds }
{}

/// Either a document stands at a place or a fault has its place, and plain reading finds which.
pub fn reading_decides()
    ensures { ReadingDecides }
{}

/// Whether a document stands at a place with an end depends on the bytes below that end alone, and these are there.
pub fn document_looks_no_further()
    ensures below { LooksNoFurther }
    ensures within { StandsWithin }
{}

/// The bytes of a document, from the place where it is read to its end, are UTF-8.
pub fn document_is_utf8()
    ensures { DocumentIsUtf8 }
{}

/// A document whose texts can be quoted, and whose nodes have pairs, stands where its lines stand.
pub fn printed_document_stands()
    ensures { PrintedStands }
{}

/// The lines of a document whose texts are UTF-8 are UTF-8.
pub fn printed_document_is_utf8()
    ensures { PrintedIsUtf8 }
{}

/// A document that stands can be printed: its texts can be quoted and are UTF-8, its nodes have pairs, and it stands where its lines stand.
pub fn standing_document_prints()
    ensures prints { StandingPrints }
    ensures utf8 { StandingIsUtf8 }
    ensures stands { StandingStandsPrinted }
{}

/// Reading byte by byte finds the same.
pub fn stream_decides()
    ensures { StreamDecides }
{}

/// While it goes on, no document stands in the bytes taken. Once it is over, the document or the place stays, whatever comes.
pub fn stream_ends_at_once()
    ensures going { StreamGoesOn }
    ensures found { StreamFinds }
    ensures at_last { StreamFindsAtOnce }
    ensures fault { StreamFails }
{}

/// Blanks and comments, whatever their bytes, end at one place or at one comment that is not closed, and plain skipping finds which.
pub fn skipping_decides()
    ensures found { SkippingDecides }
    ensures one { OneEndOfBlanks }
    ensures one_fault { OneUnclosed }
    ensures not_both { NotBothSkips }
{}
