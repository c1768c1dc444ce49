// Decoding a word: the polynomial Q in x and y that is 0 at its points, and every f with Q(x, f(x)) = 0.
use crate::naming::NamedField;
use crate::numbers::{Digits, KeyNumber};
use crate::report::{print_code, print_word};
use crate::request::{NamedWord, PlainName};
use crate::stop::Stop;
use crate::word::word_named;
use bivariate::Terms;
use code::Code;
use decoding::{Fault, agreement, find_roots, interpolate, search_room};
use itertools::Itertools;
use reed_solomon::Plain;
use std::alloc::{AllocError, Global};
use std::fmt;

// Each sum and product is proved not to wrap, and each width not to be 0. The numbers of a line have no bound to prove it from,
// so sizes saturate here, and a width is at least 1.

// How many terms stand in a row.
const TERMS_IN_ROW: usize = 8;

// A word of a code that is decoded with polynomials of degree at most `a`.
#[derive(Clone, Copy)]
struct Problem<'a> {
    name: PlainName,
    code: &'a Plain<NamedField>,
    digits: Digits,
    a: usize,
    word: &'a [u8],
}

// A polynomial in x and y: its terms, and the coefficients in their order.
#[derive(Drop)]
struct Interpolant {
    terms: Terms,
    coefficients: Vec<u8>,
}

#[derive(Clone, Copy)]
struct Term {
    c: KeyNumber,
    g: usize,
    j: usize,
}

impl fmt::Display for Term {
    fn fmt<W: fmt::Write>(&self, f: &mut fmt::Formatter<W>) -> fmt::Result {
        write!(f, "{}·x^{}·y^{}", self.c, self.g, self.j)
    }
}

fn zeros(heap: Global, count: usize) -> Result<Vec<u8>, AllocError> {
    vec![in heap; 0u8; count]
}

impl Interpolant {
    // The terms that are not 0.
    fn nonzero_terms(&self, heap: Global, digits: Digits) -> Result<Vec<Term>, AllocError> {
        let mut nonzero = Vec::new(heap);
        for j in 0..=self.terms.most_y() {
            for g in 0..self.terms.d {
                let c = self.terms.coefficient(&self.coefficients, g, j);
                if c != 0 {
                    let c = digits.number(c);
                    nonzero.push(Term { c, g, j })?;
                }
            }
        }
        Ok(nonzero)
    }
}

fn print_terms(rt: &HostRuntime, terms: &[Term]) -> Result<(), Stop> {
    println!(rt; "terms of Q: {}", terms.len())?;
    for row in terms.chunks(TERMS_IN_ROW) {
        let text = row.iter().format(rt.alloc(), " ")?;
        println!(rt; "  {text}")?;
    }
    Ok(())
}

impl Problem<'_> {
    fn interpolant(&self, heap: Global) -> Result<Interpolant, Stop> {
        // n + 1 numbers and (n + 1)² bytes, as the call asks
        let w = self.word.len().saturating_add(1);
        let mut coefficients = zeros(heap, w)?;
        let mut memory = zeros(heap, w.saturating_mul(w))?;
        let d = interpolate(
            &self.name.field,
            self.a,
            self.word,
            &mut coefficients,
            &mut memory,
        )?;
        // a degree of 0 has no terms, and was refused
        let terms = Terms::new(self.a, d).ok_or(Fault::DegreeOutOfRange(self.a))?;
        Ok(Interpolant {
            terms,
            coefficients,
        })
    }

    // How many coefficients a polynomial of degree at most `a` has.
    fn width(&self) -> usize {
        self.a.saturating_add(1)
    }

    // The roots, one behind the other.
    fn roots(&self, heap: Global, q: &Interpolant) -> Result<Vec<u8>, Stop> {
        let Terms { a, d } = q.terms;
        let room = search_room(a, d).ok_or(Fault::BoundOutOfRange(d))?;
        let mut found = zeros(heap, room.found)?;
        let mut memory = zeros(heap, room.memory)?;
        let count = find_roots(
            &self.name.field,
            a,
            d,
            &q.coefficients,
            &mut found,
            &mut memory,
        )?;
        found.truncate(count.saturating_mul(self.width()));
        Ok(found)
    }

    // The user of a polynomial that has no more coefficients than the code's: its coefficients are the user's digits, lowest first.
    // The tests have a fold of their own, which wraps: here a polynomial may be longer than any user's, and then it is none.
    fn user_of(&self, f: &[u8]) -> Option<u64> {
        let size = u64::from(self.code.alphabet());
        let user = f.iter().rev().try_fold(0u64, |user, c| {
            user.checked_mul(size)?.checked_add(u64::from(*c))
        })?;
        (f.len() <= self.name.coefficients && user < self.code.users()).then_some(user)
    }

    fn print_root(&self, rt: &HostRuntime, f: &[u8]) -> Result<(), Stop> {
        let Some(agreed) = agreement(&self.name.field, self.word, f) else {
            return Ok(());
        };
        let text = f
            .iter()
            .map(|c| self.digits.number(*c))
            .format(rt.alloc(), " ")?;
        match self.user_of(f) {
            Some(user) => println!(rt;
                "polynomial {text} is user {user} and agrees in {agreed} positions"
            )?,
            None => println!(rt; "polynomial {text} agrees in {agreed} positions")?,
        }
        Ok(())
    }

    fn report(&self, rt: &HostRuntime) -> Result<(), Stop> {
        let q = self.interpolant(rt.alloc())?;
        print_word(rt, self.digits, self.word)?;
        println!(rt; "degree at most {}, D = {}", self.a, q.terms.d)?;
        print_terms(rt, &q.nonzero_terms(rt.alloc(), self.digits)?)?;
        let found = self.roots(rt.alloc(), &q)?;
        let roots = found.chunks(self.width().max(1));
        let count = roots.len();
        for f in roots {
            self.print_root(rt, f)?;
        }
        println!(rt; "polynomials found: {count}")?;
        Ok(())
    }
}

// Prints the code, the word, Q, and the polynomials that are found.
pub(crate) fn decode(
    rt: &HostRuntime,
    name: PlainName,
    degree: usize,
    word: &NamedWord,
) -> Result<(), Stop> {
    let code = name.make()?;
    print_code(rt, &code)?;
    let word = word_named(rt.alloc(), &code, word)?;
    // `interpolate` refuses it too, but not before it is handed (n + 1)² bytes
    if !(1..=255).contains(&degree) {
        return Err(Fault::DegreeOutOfRange(degree).into());
    }
    let problem = Problem {
        name,
        code: &code,
        digits: Digits::of_size(code.alphabet()),
        a: degree,
        word: &word,
    };
    problem.report(rt)
}
