// The concatenation of any outer code with any inner code.
ghost use Rattle.std.specs.Prelude.{◌≡◌, ◌*◌, ◌/◌, ◌%◌, ◌≤◌};
ghost use Rattle.refusal.specs.Tables.{Answers};
ghost use Rattle.code.specs.Concatenation.{concatenated, concatenation_rows};
ghost use Rattle.code.specs.ConcatenationLaws.{concatenated_laws};

use crate::Code;
use refusal::Refusal;

// How many positions a table may have.
const LONGEST: usize = 8192;

// There is an inner user for each outer symbol, and a table is not too long.
#[derive(Drop)]
pub struct Concatenation<O: Code, I: Code> {
    outer: O,
    inner: I,
    ghost covered: { (O.Code.meaning outer).alphabet ≤ (I.Code.meaning inner).users },
    ghost short: { (O.Code.meaning outer).length * (I.Code.meaning inner).length ≤ 8192 },
}

impl<O: Code + Drop, I: Code + Drop> Concatenation<O, I> {
    pub fn new(outer: O, inner: I) -> Result<Concatenation<O, I>, Refusal>
        ensures { Answers result (concatenation_rows (O.Code.meaning outer) (I.Code.meaning inner)) (λ c. ⟦<Concatenation<O, I> as Code>⟧.meaning c ≡ concatenated (O.Code.meaning outer) (I.Code.meaning inner)) }
    {
        let users = inner.users();
        if users < outer.alphabet() as u64 {
            return Err(Refusal::InnerUsersTooFew(users));
        }
        let length = outer.length() * inner.length();
        if length > LONGEST {
            return Err(Refusal::LengthTooLong(length));
        }
        Ok(Concatenation { outer, inner })
    }
}

impl<O: Code, I: Code> Concatenation<O, I> {
    // The block of a position, which is a position of the outer code, and the place within it, one of the inner code.
    fn block(&self, position: usize) -> (usize, usize)
        ensures block { result.0 ≡ position / (I.Code.meaning self.now.inner).length }
        ensures place { result.1 ≡ position % (I.Code.meaning self.now.inner).length }
    {
        let n = self.inner.length();
        (position / n, position % n)
    }
}

impl<O: Code, I: Code> Code for Concatenation<O, I> {
    ghost meaning = { λ c. concatenated (O.Code.meaning c.outer) (I.Code.meaning c.inner) };

    ghost lawful = { λ c. concatenated_laws _ _ (O.Code.lawful c.outer) (I.Code.lawful c.inner) c.covered c.short };

    fn users(&self) -> u64 {
        self.outer.users()
    }

    fn length(&self) -> usize {
        self.outer.length() * self.inner.length()
    }

    fn alphabet(&self) -> u16 {
        self.inner.alphabet()
    }

    fn overlap(&self) -> usize {
        let whole = self.outer.length() * self.inner.length();
        let blocks = self.outer.overlap() * self.inner.length();
        let rest = self.outer.length() * self.inner.overlap();
        whole.min(blocks + rest)
    }

    fn symbol(&self, user: u64, position: usize) -> Option<u8> {
        let (block, place) = self.block(position);
        let symbol = self.outer.symbol(user, block)?;
        self.inner.symbol(symbol as u64, place)
    }
}
