// What can be wrong with a record, in words.
#[derive(Clone, Copy)]
pub enum Fault {
    // Field rules: kind, choice, span; category, type, value, function; bytes that a plain record, a section, an obligation does not use.
    NoKind,
    NoChoice,
    NoSpan,
    NothingBelow,
    SomethingBelow,
    NoCategory,
    NoType,
    NotFinite,
    NameOrdered,
    PlainByte,
    SectionByte,
    ObligationByte,

    // Place rules: of line 1; of any other, past the parent's end, not taken by it, not at that place below it, too deep.
    NoTop,
    NotAll,
    PastEnd,
    NotTaken,
    LateSection,
    OtherCategory,
    SecondInRule,
    SecondInNot,
    AfterObligation,
    TooDeep,

    // Values: the type of a literal, bytes that a literal or an attribute does not use, the operands of an operator and of a comparison.
    LiteralType,
    LiteralByte,
    AttributeByte,
    OtherOperands,
    OtherPair,

    // A byte behind the issuer of a match or comparison.
    TestByte,
}

impl Fault {
    pub fn words(self) -> &'static str {
        match self {
            Fault::NoKind => "byte 0 is no kind, 1 to 8 or 10",
            Fault::NoChoice => "byte 1 is no choice of its kind",
            Fault::NoSpan => "its span, bytes 2 and 3, is 0",
            Fault::NothingBelow => "its span is below 2, and something must stand below it",
            Fault::SomethingBelow => "its span is not 1, and nothing stands below it",
            Fault::NoCategory => "byte 4 is no category, 1 to 4",
            Fault::NoType => "byte 5 is no type, 1 to 3, or 129 to 131",
            Fault::NotFinite => "its double is not finite",
            Fault::NameOrdered => "a name is compared by equal alone",
            Fault::PlainByte => "a byte that its kind does not use, of 4 to 19, is not zero",
            Fault::SectionByte => "a byte that its kind does not use, of 5 to 19, is not zero",
            Fault::ObligationByte => {
                "a byte that its kind does not use, of 4, 5 and 8 to 19, is not zero"
            }
            Fault::NoTop => "line 1 is no policy set and no policy",
            Fault::NotAll => "its span is not the number of records",
            Fault::PastEnd => "it runs past its parent's end",
            Fault::NotTaken => "its parent takes no record of its kind",
            Fault::LateSection => "sections stand first, and their categories rise",
            Fault::OtherCategory => "a match has the category of its section",
            Fault::SecondInRule => "a rule has at most one condition",
            Fault::SecondInNot => "not has exactly one condition below it",
            Fault::AfterObligation => "obligations stand last",
            Fault::TooDeep => "it is nested deeper than 16",
            Fault::LiteralType => "byte 5 is no type, 1 to 3",
            Fault::LiteralByte => {
                "a byte that its kind does not use, of 4, 6, 7 and 16 to 19, is not zero"
            }
            Fault::AttributeByte => {
                "a byte that its kind does not use, of 8 to 15, 18 and 19, is not zero"
            }
            Fault::OtherOperands => "an operator has exactly two values of its type below it",
            Fault::OtherPair => {
                "exactly two values of one type are compared, names by equal alone"
            }
            Fault::TestByte => "a byte behind its issuer, 18 or 19, is not zero",
        }
    }
}
