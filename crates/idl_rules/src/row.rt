//! The rows of refusals.
ghost use Rattle.std.specs.Prelude.{◌≡◌};
ghost use Rattle.idl_rules.specs.Rows.{rank_of, row_text};

use gate_base::Text;

/// Why an IDL file is refused. At one offset the row that stands first here is told.
#[derive(Clone, Copy, Debug, PartialEq, Eq)]
pub enum IdlRow {
    /// No token begins here.
    LexicalFault,
    /// The tokens up to this one begin no document.
    SyntaxFault,
    /// There is no file of the name that an include gives.
    MissingFile,
    /// An include names a file whose own includes are being read.
    IncludeCycle,
    /// A name stands twice in one scope of a file, in one enum or in one service.
    DuplicateName,
    /// No declaration has this name.
    UnknownName,
    /// Only constants or services have this name.
    NotAType,
    /// What a service extends is none.
    NotAService,
    /// What a method throws is no exception.
    NotAnException,
    /// A typedef leads to itself.
    TypedefCycle,
    /// A service extends itself in the end.
    ServiceCycle,
    /// A field's id stands before it in its list.
    DuplicateFieldId,
    /// A field's name stands before it in its list.
    DuplicateFieldName,
    /// A field's id is not one from 1 to 32767, or an id that is counted down passes -32768.
    IdOutOfRange,
    /// The number of an enum's member is none of 32 bits.
    EnumValueOutOfRange,
    /// A method that is not answered returns or throws something.
    OnewayWithResult,
    /// An include would load one file too many.
    TooManyFiles,
    /// A type or a value nests too deep.
    NestedTooDeep,
}

/// A refusal: the file under the name that it was loaded by, the offset in it in bytes, and the row.
#[derive(Drop)]
pub struct IdlFault {
    pub file: Text,
    pub offset: usize,
    pub row: IdlRow,
}

impl IdlRow {
    /// The row's number and its words, as a line of refusal has them: `I10 typedef cycle`.
    pub fn text(self) -> &'static [u8]
        ensures { result.now ≡ row_text self }
    {
        match self {
            IdlRow::LexicalFault => b"I1 lexical fault",
            IdlRow::SyntaxFault => b"I2 syntax fault",
            IdlRow::MissingFile => b"I3 missing file",
            IdlRow::IncludeCycle => b"I4 include cycle",
            IdlRow::DuplicateName => b"I5 duplicate name",
            IdlRow::UnknownName => b"I6 unknown name",
            IdlRow::NotAType => b"I7 not a type",
            IdlRow::NotAService => b"I8 not a service",
            IdlRow::NotAnException => b"I9 not an exception",
            IdlRow::TypedefCycle => b"I10 typedef cycle",
            IdlRow::ServiceCycle => b"I11 service cycle",
            IdlRow::DuplicateFieldId => b"I12 duplicate field id",
            IdlRow::DuplicateFieldName => b"I13 duplicate field name",
            IdlRow::IdOutOfRange => b"I14 id out of range",
            IdlRow::EnumValueOutOfRange => b"I15 enum value out of range",
            IdlRow::OnewayWithResult => b"I16 oneway with result or throws",
            IdlRow::TooManyFiles => b"I17 too many files",
            IdlRow::NestedTooDeep => b"I18 nested too deep",
        }
    }

    /// The row's number: at one offset the row with the lesser number is told.
    pub fn rank(self) -> u8
        ensures { result ≡ rank_of self }
    {
        match self {
            IdlRow::LexicalFault => 1,
            IdlRow::SyntaxFault => 2,
            IdlRow::MissingFile => 3,
            IdlRow::IncludeCycle => 4,
            IdlRow::DuplicateName => 5,
            IdlRow::UnknownName => 6,
            IdlRow::NotAType => 7,
            IdlRow::NotAService => 8,
            IdlRow::NotAnException => 9,
            IdlRow::TypedefCycle => 10,
            IdlRow::ServiceCycle => 11,
            IdlRow::DuplicateFieldId => 12,
            IdlRow::DuplicateFieldName => 13,
            IdlRow::IdOutOfRange => 14,
            IdlRow::EnumValueOutOfRange => 15,
            IdlRow::OnewayWithResult => 16,
            IdlRow::TooManyFiles => 17,
            IdlRow::NestedTooDeep => 18,
        }
    }
}
