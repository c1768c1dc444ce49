// The codes that names stand for.
use crate::either::EitherCode;
use crate::naming::NamedField;
use crate::request::{NamedCode, PlainName};
use reed_solomon::{DoublyExtended, Plain};
use refusal::Refusal;

// A plain code, or a doubly extended one.
type ReedSolomonCode = EitherCode<Plain<NamedField>, DoublyExtended<NamedField>>;

impl PlainName {
    pub(crate) fn make(self) -> Result<Plain<NamedField>, Refusal> {
        Plain::new(self.field, self.length, self.coefficients)
    }
}

impl NamedCode {
    pub(crate) fn make(self) -> Result<ReedSolomonCode, Refusal> {
        Ok(match self {
            NamedCode::Plain(name) => EitherCode::Left(name.make()?),
            NamedCode::Extended {
                field,
                coefficients,
            } => EitherCode::Right(DoublyExtended::new(field, coefficients)?),
        })
    }
}
