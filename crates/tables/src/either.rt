// A code that is one of two kinds of code.
// Generic, though only one pair is used: an `impl` gives the law of a code by a bound's name, `L.Code.lawful`, and there is no
// such name for the law of a type like `Plain<NamedField>`.
ghost use Rattle.tables.specs.declared.either.EitherCode.TheVariants.{Left, Right};

use code::Code;

#[derive(Drop)]
pub enum EitherCode<L: Code, R: Code> {
    Left(L),
    Right(R),
}

// Each method asks the code that it is by a match, as those of `NamedField` do.
impl<L: Code, R: Code> Code for EitherCode<L, R> {
    ghost meaning = { elim [ Left code ↦ L.Code.meaning code | Right code ↦ R.Code.meaning code ] };

    ghost lawful = { elim [ Left code ↦ L.Code.lawful code | Right code ↦ R.Code.lawful code ] };

    fn users(&self) -> u64 {
        match self {
            EitherCode::Left(code) => code.users(),
            EitherCode::Right(code) => code.users(),
        }
    }

    fn length(&self) -> usize {
        match self {
            EitherCode::Left(code) => code.length(),
            EitherCode::Right(code) => code.length(),
        }
    }

    fn alphabet(&self) -> u16 {
        match self {
            EitherCode::Left(code) => code.alphabet(),
            EitherCode::Right(code) => code.alphabet(),
        }
    }

    fn overlap(&self) -> usize {
        match self {
            EitherCode::Left(code) => code.overlap(),
            EitherCode::Right(code) => code.overlap(),
        }
    }

    fn symbol(&self, user: u64, position: usize) -> Option<u8> {
        match self {
            EitherCode::Left(code) => code.symbol(user, position),
            EitherCode::Right(code) => code.symbol(user, position),
        }
    }
}
